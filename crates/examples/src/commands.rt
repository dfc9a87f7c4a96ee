// The examples by commands to the whole unit: commands as bytes, and what the bytes of their answers say.
// They act on side 1, the data TLB. All but demap all are strand 0's; that is the host's, whose strand stays in mode 2.
ghost use Rattle.std.specs.Prelude.{◌≡◌, ◌++◌};
ghost use Rattle.std.specs.Int.{w64, to_be_bytes};

use crate::State;
use crate::output::Output;
use crate::places::Place;
use machine::Slot;
use std::io::Write;

const STRAND: u8 = 0;

const HOST: u8 = 1;

const SIDE: u8 = 1;

// Command bytes.
const WRITE: u8 = 0x01;

const INSERT: u8 = 0x02;

const DEMAP_ALL: u8 = 0x05;

const ACCESS: u8 = 0x07;

// Registers.
const PRIMARY_CONTEXT: u8 = 1;

const MODE: u8 = 3;

const TRANSLATION: u8 = 4;

const DATA_TAG_ACCESS: u8 = 21;

// Operands of the access: a load of eight bytes in the primary context.
const LOAD: u8 = 1;

const PRIMARY: u8 = 0;

const EIGHT_BYTES: u8 = 3;

// What is read of an answer, by its kind: the first value of three kinds, a trap's number, and of the others the kind alone.
#[derive(Clone, Copy)]
pub enum Reply {
    Done(u64),
    Physical(u64),
    Trap(u8),
    Displaced(Place),
    Other(u8),
}

impl From<[u8; machine::ANSWER_BYTES]> for Reply {
    fn from(answer: [u8; machine::ANSWER_BYTES]) -> Reply {
        let first = wire::eight_bytes(&answer, 8);
        match answer[0] {
            0 => Reply::Done(first),
            1 => Reply::Physical(first),
            2 => Reply::Trap(answer[1]),
            4 => Reply::Displaced(Place::of_tag(first)),
            kind => Reply::Other(kind),
        }
    }
}

// What stands before a command's last operand, and that operand, of eight bytes. A command with less before it starts later.
fn command(before: [u8; 5], value: u64) -> [u8; 13]
    ensures { result ≡ before ++ to_be_bytes w64 value }
{
    let mut bytes = [0; 13];
    bytes[..5].copy_from_slice(&before);
    bytes[5..].copy_from_slice(&value.to_be_bytes());
    bytes
}

// The slots of the side that the commands act on.
pub fn side_of(state: &State) -> &[u64] {
    &state[machine::REGISTER_WORDS + machine::SIDE_WORDS..]
}

// Runs a command and reads its answer.
fn answer_to(state: &mut State, command: &[u8]) -> Reply {
    let mut output = [0; machine::ANSWER_BYTES];
    stream::run(state, command, &mut output, false);
    Reply::from(output)
}

fn write(state: &mut State, register: u8, value: u64) {
    let bytes = command([0, 0, WRITE, STRAND, register], value);
    answer_to(state, &bytes[2..]);
}

// An insertion takes its page and context from tag access. Flags 0: unlocked, virtual.
pub fn insert(state: &mut State, new: Slot) -> Reply {
    write(state, DATA_TAG_ACCESS, Place::from(new).tag());
    let bytes = command([0, INSERT, STRAND, SIDE, 0], new.word);
    answer_to(state, &bytes[1..])
}

// What a privileged load answers, with translation on: a physical address, or a trap's number.
pub fn print_load(out: &mut Output, state: &mut State, place: Place) {
    write(state, TRANSLATION, 3);
    write(state, PRIMARY_CONTEXT, place.context);
    write(state, MODE, 1);
    let bytes = command([ACCESS, STRAND, LOAD, PRIMARY, EIGHT_BYTES], place.address);
    let _ = write!(out, "  by commands: load of 0x{place}");
    let _ = match answer_to(state, &bytes) {
        Reply::Physical(address) => write!(out, ": 0x{address:x}"),
        Reply::Trap(number) => write!(out, ": trap 0x{number:x}"),
        Reply::Done(_) | Reply::Displaced(_) | Reply::Other(_) => write!(out, ": no load"),
    };
    let _ = writeln!(out);
}

// How many entries are live: none is locked, so demap all removes them all, and its answer has the count.
pub fn print_live(out: &mut Output, state: &mut State) {
    let _ = match answer_to(state, &[DEMAP_ALL, HOST, SIDE]) {
        Reply::Done(count) => write!(out, "  by commands: {count} live\n"),
        _ => write!(out, "  by commands: no count\n"),
    };
}
