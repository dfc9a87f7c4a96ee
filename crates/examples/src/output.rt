// Standard output as the examples write it.
use std::io::{Result, Stdout, Write};

// Each literal and each value of a text is one write. One that fails is passed over, and the next is tried.
#[derive(Drop)]
pub struct Output(pub Stdout);

impl Write for Output {
    fn write(&mut self, text: &[u8]) -> Result<usize> {
        let _ = self.0.write_all(text);
        Ok(text.len())
    }

    fn flush(&mut self) -> Result<()> {
        Ok(())
    }
}
