// What a buyer must believe: the declared types, the definitions in specs/ and the theorems on them.
#![tactic(auto)]

ghost use Rattle.std.specs.Prelude.{◌≡◌, ℕ, length};
ghost use Rattle.machine.specs.State.{Counts, counts, slot_count};
ghost use Rattle.machine.specs.Stream.{answer_bytes};
ghost use Rattle.machine.specs.declared.Answer.{Answer};
ghost use Rattle.machine.specs.Demand1.{Demand1};
ghost use Rattle.machine.specs.Demand2.{Demand2};
ghost use Rattle.machine.specs.Demand3.{Demand3, Described};
ghost use Rattle.machine.specs.Places.{slots};
ghost use Rattle.machine.specs.Reference.{Told};
ghost use Rattle.machine.specs.Frame.{Framed, SoundKept};
ghost use Rattle.machine.specs.Lookups.{Lookups};
ghost use Rattle.machine.specs.Examples.{Starred, PrintedRun};
ghost use Rattle.machine.specs.Format.{Readable, Decodes};
ghost use Rattle.machine.specs.Searches.{Searches};
ghost use Rattle.machine.specs.Extent.{Extent};
ghost use Rattle.machine.specs.Guests.{GuestsConfined, MarkAlone};
ghost use Rattle.machine.specs.Host.{HostTold};
ghost use Rattle.machine.specs.Runs.{Runs};

mod below;

pub use below::{Below, Side, Strand};

// Registers by number: document 01, "Registers", names them so, and asks for a match on their ranges. One that each side has stands at the
// number given plus the side.
pub const PARTITION: u8 = 0;

pub const PRIMARY_CONTEXT: u8 = 1;

pub const SECONDARY_CONTEXT: u8 = 2;

pub const MODE: u8 = 3;

pub const TRANSLATION: u8 = 4;

pub const ADDRESS_MASK: u8 = 5;

pub const TSB_BASE: u8 = 8;

pub const TSB_CONFIGURATION: u8 = 16;

pub const TAG_ACCESS: u8 = 20;

pub const FAULT_ADDRESS: u8 = 22;

pub const FAULT_STATUS: u8 = 24;

// What a mode register holds: a number in a cell, as C is lent it.
pub const USER: u64 = 0;

pub const PRIVILEGED: u64 = 1;

pub const HYPERPRIVILEGED: u64 = 2;

// The words of a state: cells of a strand and of all four, the words of a slot, the slots and words of a side, the miss records, all.
pub const STRAND_CELLS: usize = 32;

pub const REGISTER_WORDS: usize = 4 * STRAND_CELLS;

pub const SLOT_WORDS: usize = 4;

pub const SIDE_SLOTS: usize = 64;

pub const SIDE_WORDS: usize = SIDE_SLOTS * SLOT_WORDS;

// One for either side of each strand: how many lookups it has seen, its newest word, and its older words.
pub const RECORDS: usize = 8;

pub const OLDER_WORDS: usize = 15;

pub const SEEN: usize = REGISTER_WORDS + 2 * SIDE_WORDS;

pub const NEWEST: usize = SEEN + RECORDS;

pub const OLDER: usize = NEWEST + RECORDS;

pub const STATE_WORDS: usize = OLDER + RECORDS * OLDER_WORDS;

// The bytes of an answer, and of an entry of a TSB.
pub const ANSWER_BYTES: usize = 24;

pub const TSB_ENTRY_BYTES: usize = 16;

// What stands for the size code of a bypass, which has no page.
pub const BYPASS_CODE: u64 = 15;

// The three kinds of address, which document 01 asks for. None is read for another: each crossing is a function with a name.
#[derive(Clone, Copy)]
pub struct VirtualAddress(pub u64);

#[derive(Clone, Copy)]
pub struct RealAddress(pub u64);

#[derive(Clone, Copy)]
pub struct PhysicalAddress(pub u64);

// The fields of an entry word (a sun4v TTE), from bit 63 down.
#[repr(C)]
#[derive(Clone, Copy)]
pub struct Tte {
    pub v: u64,
    pub nfo: u64,
    pub soft2: u64,
    pub address: u64,
    pub ie: u64,
    pub e: u64,
    pub cp: u64,
    pub cv: u64,
    pub p: u64,
    pub ep: u64,
    pub w: u64,
    pub soft: u64,
    pub size: u64,
}

// An address and whose it is: what a lookup asks for, and what an insertion maps. A real one has no context.
#[derive(Clone, Copy)]
pub enum Key {
    Virtual {
        partition: u64,
        context: u64,
        address: VirtualAddress,
    },
    Real {
        partition: u64,
        address: RealAddress,
    },
}

// The four words of a slot, as they stand in the state.
//   owner  partition * 2^14 + real bit * 2^13 + context
//   page   the virtual or real address at which the page starts
//   word   the TTE; bit 63 says that the slot is live, bits 3:0 are the size code
//   flags  lock + 2 * used bit
#[derive(Clone, Copy, Debug, Default, PartialEq, Eq)]
pub struct Slot {
    pub owner: u64,
    pub page: u64,
    pub word: u64,
    pub flags: u64,
}

// What the match of an address against an entry yields: the size code of the page, and the offset in it.
#[derive(Clone, Copy)]
pub struct Reach {
    pub code: u64,
    pub offset: u64,
}

// What a search of slots yields: the slot found, and how many pages were compared.
#[derive(Clone, Copy)]
pub struct Searched {
    pub found: Option<usize>,
    pub compared: usize,
}

// Which entries a removal takes.
#[derive(Clone, Copy)]
pub enum Removal {
    // demap page: the entry that answers to a key
    Page(Key),
    // demap context: the virtual entries of a partition and a context
    Context { partition: u64, context: u64 },
    // demap all: a partition's unlocked entries
    Unlocked { partition: u64 },
    // invalidate all
    Everything,
    // insertion: the entries that the new one overlaps
    Overlapping(Slot),
}

// What the choice of a slot looks for. A candidate is an entry that may be displaced.
#[derive(Clone, Copy)]
pub enum Wanted {
    Empty,
    Unused,
    Candidate,
}

// The slot that an insertion takes: an empty one; else an unused candidate; else, with all used bits cleared, a candidate; else none. No
// `Option` of a slot: what is done there goes by which of the three it is.
#[derive(Clone, Copy)]
pub enum Choice {
    Empty(usize),
    Unused(usize),
    Cleared(usize),
    Full,
}

// No slot is to be had for an insertion.
#[derive(Clone, Copy)]
pub struct NoSlot;

// A decoded command, its operands as they stand in the stream: numbers, in the form that document 01 names, which the questions ask in order.
#[derive(Clone, Copy)]
pub enum Command {
    Write {
        strand: u8,
        register: u8,
        value: u64,
    },
    Insert {
        strand: u8,
        side: u8,
        flags: u8,
        word: u64,
    },
    DemapPage {
        strand: u8,
        side: u8,
        selector: u8,
        flags: u8,
        address: VirtualAddress,
    },
    DemapContext {
        strand: u8,
        side: u8,
        selector: u8,
    },
    DemapAll {
        strand: u8,
        side: u8,
    },
    Invalidate {
        side: u8,
    },
    Access {
        strand: u8,
        kind: u8,
        selector: u8,
        size: u8,
        address: VirtualAddress,
    },
    Read {
        strand: u8,
        register: u8,
    },
    Pointers {
        strand: u8,
        side: u8,
    },
    Rate {
        strand: u8,
        side: u8,
    },
}

// Why a command that was taken did not act: numbers 5 to 13, in their order; 14, of a miss alone; 15 and 16.
#[derive(Clone, Copy)]
pub enum Refusal {
    Strand,
    Side,
    Selector,
    Operand,
    Register,
    Value,
    Address,
    Word,
    NoSlot,
    Table,
    NoLookup,
    Permission,
}

// The traps of an access, by the T1's names. A fault type goes with an access exception alone.
#[derive(Clone, Copy)]
pub enum Trap {
    InstructionAccessException(u64),
    DataAccessException(u64),
    AddressNotAligned,
    PrivilegedAction,
    InstructionRealMiss,
    DataRealMiss,
    InstructionMiss,
    DataMiss,
    DataProtection,
}

// The operands of an access, with its side and the address used. Kind, selector and size stay numbers: `access_of` is told of every number,
// also of one that no question passes.
#[derive(Clone, Copy)]
pub struct Access {
    pub strand: Strand,
    pub kind: u8,
    pub side: Side,
    pub selector: u8,
    pub size: u8,
    pub used: VirtualAddress,
}

// How far an access comes before the lookup. A trap with the context that it writes to tag access, where it writes one. Three ways on, each
// with its name: as an `Option` in a `Result`, `None` would mean the lookup.
#[derive(Clone, Copy)]
pub enum Prepared {
    Stopped(Trap, Option<u64>),
    Bypass(Translation),
    Lookup,
}

// A trap with the address used and the tag access register after it.
#[derive(Clone, Copy)]
pub struct Trapped {
    pub address: VirtualAddress,
    pub tag: u64,
    pub trap: Trap,
}

// A physical address, cp + 2 * e + 4 * ie of its page, and the page's size code; of a bypass 15.
#[derive(Clone, Copy)]
pub struct Translation {
    pub address: PhysicalAddress,
    pub attributes: u64,
    pub code: u64,
}

// A displaced entry as an answer names it: partition, real bit, page address plus context, and the word.
#[derive(Clone, Copy)]
pub struct Displaced {
    pub partition: u64,
    pub place: u64,
    pub real: bool,
    pub word: u64,
}

// What a command answers, and a served miss. The trap and the real bit stand third in what they belong to and so share a place: fewer instructions an answer.
#[derive(Clone, Copy)]
pub enum Answer {
    Done(u64),
    Physical(Translation),
    Trap(Trapped),
    Read(u64, u64),
    Displaced(Displaced),
    Refused(Refusal),
    // of a served miss alone: the entry does not fit; the state is not sound (number 1, for which a run has its stop)
    NotInTable,
    Unsound,
}

// Why a run ends before its input does: numbers 1 to 4, in their order.
#[derive(Clone, Copy)]
pub enum Stop {
    Unsound,
    NoCommand,
    Truncated,
    NoRoom,
}

// What a run returns beside the state and the output, as C is given it: the stop is a number.
#[repr(C)]
#[derive(Clone, Copy)]
pub struct Report {
    pub answered: usize,
    pub taken: usize,
    pub stop: u8,
}

// The part of a lent table that is handed back, as C is given it: of the other one where `other` is 1, else of that for context zero; or a
// number, and an empty part.
#[repr(C)]
#[derive(Clone, Copy)]
pub struct Part {
    pub number: u8,
    pub other: u8,
    pub start: usize,
    pub length: usize,
}

// The bytes of an answer. The other clauses hold only while their theorems are proved, so the gate asks for them.
pub fn answer_width() -> usize
    ensures width { (result ≡ 24) × ((a : Answer) → length (answer_bytes a) ≡ result) }
    ensures told { (c : Counts) → Told c (slot_count c) }
    ensures sold { Told counts slots }
    ensures readable { Readable }
    ensures demand1 { Demand1 }
    ensures demand2 { Demand2 }
    ensures demand3 { (n : Counts) → Demand3 n }
    ensures described { (n : Counts) → Described n }
    ensures sound { SoundKept }
    ensures framed { Framed }
    ensures searches { (n : Counts) → Searches n }
    ensures lookups { Lookups }
    ensures extent { (n : Counts) → Extent n }
    ensures guests { (n : Counts) → GuestsConfined (slot_count n) }
    ensures mark { MarkAlone }
    ensures host { (n : ℕ → ℕ) → HostTold n }
    ensures decodes { Decodes }
    ensures starred { Starred }
    ensures printed { PrintedRun }
    ensures runs { Runs }
{
    ANSWER_BYTES
}
