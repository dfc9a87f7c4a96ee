// Pages and addresses as they are printed.
ghost use Rattle.std.specs.Prelude.{◌≡◌, ◌+◌, ◌*◌, ◌/◌, ◌%◌, ◌<◌};

use machine::Slot;
use std::fmt;

// A page's address plus a context, as in tag access: the context is below this.
const CONTEXTS: u64 = 0x2000;

// An address of a context, as in "402000 in context 5": the 0x is written with the text before it.
#[derive(Clone, Copy)]
pub struct Place {
    pub address: u64,
    pub context: u64,
}

impl Place {
    // The page and the context as one word.
    pub fn tag(self) -> u64
        ensures { result ≡ self.address / CONTEXTS * CONTEXTS + self.context % CONTEXTS }
    {
        self.address / CONTEXTS * CONTEXTS + self.context % CONTEXTS
    }

    pub fn of_tag(tag: u64) -> Place
        ensures whole { result.address + result.context ≡ tag }
        ensures context { result.context < CONTEXTS }
    {
        Place {
            address: tag / CONTEXTS * CONTEXTS,
            context: tag % CONTEXTS,
        }
    }
}

// Where an entry's page lies.
impl From<Slot> for Place {
    fn from(x: Slot) -> Place {
        Place {
            address: x.page,
            context: x.owner % CONTEXTS,
        }
    }
}

impl fmt::Display for Place {
    fn fmt<W: fmt::Write>(&self, f: &mut fmt::Formatter<W>) -> fmt::Result {
        write!(f, "{:x} in context {}", self.address, self.context)
    }
}

// The page of an entry, as in "8 KB at 0x402000 in context 5".
#[derive(Clone, Copy)]
pub struct Page(pub Slot);

impl fmt::Display for Page {
    fn fmt<W: fmt::Write>(&self, f: &mut fmt::Formatter<W>) -> fmt::Result {
        let kilobytes = pages::page_size(self.0.word % 16) / 1024;
        write!(f, "{kilobytes} KB at 0x{}", Place::from(self.0))
    }
}

// An address of context 0 of a partition, as in "0x2000 of partition 1".
#[derive(Clone, Copy)]
pub struct Owned {
    pub partition: u64,
    pub address: u64,
}

impl fmt::Display for Owned {
    fn fmt<W: fmt::Write>(&self, f: &mut fmt::Formatter<W>) -> fmt::Result {
        write!(f, "0x{:x} of partition {}", self.address, self.partition)
    }
}
