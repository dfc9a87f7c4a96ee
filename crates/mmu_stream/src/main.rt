// The stream program: at most 4,096 bytes of standard input, run from reset as a stream without the hypervisor's mark. A line for each answer, its 24 bytes in
// hexadecimal; then a line that starts with `end` and has the three numbers that the run returns, the stop last.
#![tactic(auto)]

ghost use Rattle.std.specs.Prelude.{◌≡◌, ◌<◌, ◌≤◌, length, Some};
ghost use Rattle.std.specs.Str.{IsAscii};
ghost use Rattle.mmu_stream.specs.Line.{digit_of, line_at, list_of};

use machine::Report;
use std::io::{Read, Write};
use std::{fmt, str};

// A hexadecimal digit, in lower case.
fn digit(n: u8) -> u8
    requires { n < 16 }
    ensures { result ≡ digit_of n }
{
    if n < 10 { n + 48 } else { n + 87 }
}

// The text of an answer's line. By `{:02x}` of each byte a run with many answers takes twice the time.
fn line_of(answer: &[u8; machine::ANSWER_BYTES]) -> [u8; 49]
    ensures line { result ≡ list_of (line_at answer.now 0) 0 49 }
    ensures ascii { IsAscii result }
{
    let mut line = [b'\n'; 49];
    for (i, byte) in answer.iter().enumerate() {
        line[2 * i] = digit(byte / 16);
        line[2 * i + 1] = digit(byte % 16);
    }
    line
}

// The line of an answer, its end included.
#[derive(Clone, Copy)]
struct Line<'a>(&'a [u8; machine::ANSWER_BYTES]);

impl fmt::Display for Line<'_> {
    ghost output = { λ line. Some (list_of (line_at line.0.now 0) 0 49) };

    // In one piece, so that one line is one write.
    fn fmt<W: fmt::Write>(&self, f: &mut fmt::Formatter<W>) -> fmt::Result {
        let line = line_of(self.0);
        f.write_str(str::from_utf8(&line).unwrap())
    }
}

// Fills a buffer up to where the input ends or a read fails, and says how far.
fn read_full<R: Read>(reader: &mut R, buf: &mut [u8]) -> usize
    ensures { result ≤ length buf.new }
{
    let mut done = 0;
    // over reads, of which each says how far it came: no index is counted
    while let Ok(n @ 1..) = reader.read(&mut buf[done..]) {
        done += n;
    }
    done
}

// A line for each answer, and the end, in pieces. A piece that cannot be written is passed over: those behind it are tried.
fn print_run<W: Write>(out: &mut W, answers: &[[u8; machine::ANSWER_BYTES]], ran: Report) {
    for answer in answers {
        let _ = write!(out, "{}", Line(answer));
    }
    let _ = write!(out, "end ");
    let _ = write!(out, "{}", ran.answered);
    let _ = write!(out, " ");
    let _ = write!(out, "{}", ran.taken);
    let _ = write!(out, " ");
    let _ = write!(out, "{}", ran.stop);
    let _ = writeln!(out);
}

fn main(rt: HostRuntime) {
    let mut input = [0; 4096];
    let mut output = [0; 49152];
    let mut words = [0; machine::STATE_WORDS];
    let n = read_full(&mut rt.stdin(), &mut input);
    state::reset(&mut words);
    let ran = stream::run(&mut words, &input[..n], &mut output, false);
    let (answers, _) = output.as_chunks();
    // the status is 0 whatever could be written
    print_run(&mut rt.stdout(), &answers[..ran.answered], ran);
}
