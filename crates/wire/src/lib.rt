// Commands read from bytes and answers written as bytes: document 01, "The stream".
#![tactic(auto)]

ghost use Rattle.std.specs.Prelude.{◌≡◌, ◌+◌, ◌<◌, ◌≤◌, length};
ghost use Rattle.std.proofs.lemmas.List.Edits.{sets};
ghost use Rattle.machine.specs.Stream.{byte as byte_of, eight, width_of, command_at, decode_at, bytes, fields_of, answer_bytes};
ghost use Rattle.machine.specs.declared.Answer.TheVariants.{Trap as TrapAnswer};
ghost use Rattle.wire.specs.Wire.{Whole, stop_of, full_stop_of, head_of, answer_words};

use machine::{Answer, Command, Stop, Trapped, VirtualAddress};

// ---- commands

// Eight bytes from a position, big-endian.
pub fn eight_bytes(s: &[u8], at: usize) -> u64
    requires { at + 8 ≤ length s.now }
    ensures { result ≡ eight s.now at }
{
    u64::from_be_bytes(*s[at..at + 8].as_array().unwrap())
}

// The width of a command in bytes, its own byte included; 0 where the byte is no command's.
fn command_width(byte: u8) -> usize
    ensures { result ≡ width_of byte }
{
    match byte {
        1 => 11,
        2 => 12,
        3 => 13,
        4 => 4,
        5 => 3,
        6 => 2,
        7 => 13,
        8 => 3,
        9 => 3,
        10 => 3,
        _ => 0,
    }
}

// A command of one-byte operands alone. No command takes the arm `_`: with all ten told apart the compiler asks the byte's range once.
fn short_command(rest: &[u8]) -> Command
    requires { Whole rest.now × (width_of (byte_of rest.now 0) ≤ 4) }
    ensures { result ≡ command_at rest.now 0 }
{
    let first = rest[1];
    match rest[0] {
        4 => Command::DemapContext {
            strand: first,
            side: rest[2],
            selector: rest[3],
        },
        5 => Command::DemapAll {
            strand: first,
            side: rest[2],
        },
        8 => Command::Read {
            strand: first,
            register: rest[2],
        },
        9 => Command::Pointers {
            strand: first,
            side: rest[2],
        },
        10 => Command::Rate {
            strand: first,
            side: rest[2],
        },
        6 => Command::Invalidate { side: first },
        _ => Command::Invalidate { side: 0 },
    }
}

// The command at the front of the rest, all its bytes there.
fn known_command(rest: &[u8]) -> Command
    requires { Whole rest.now }
    ensures { result ≡ command_at rest.now 0 }
{
    match rest[0] {
        1 => Command::Write {
            strand: rest[1],
            register: rest[2],
            value: eight_bytes(rest, 3),
        },
        2 => Command::Insert {
            strand: rest[1],
            side: rest[2],
            flags: rest[3],
            word: eight_bytes(rest, 4),
        },
        3 => Command::DemapPage {
            strand: rest[1],
            side: rest[2],
            selector: rest[3],
            flags: rest[4],
            address: VirtualAddress(eight_bytes(rest, 5)),
        },
        7 => Command::Access {
            strand: rest[1],
            kind: rest[2],
            selector: rest[3],
            size: rest[4],
            address: VirtualAddress(eight_bytes(rest, 5)),
        },
        _ => short_command(rest),
    }
}

// The command at the front of the rest; number 2 where its byte is no command's, number 3 where its width runs past the end.
fn decode_first(rest: &[u8]) -> Result<(Command, usize), Stop>
    requires { 0 < length rest.now }
    ensures { result ≡ decode_at rest.now 0 }
{
    let width = command_width(rest[0]);
    if width == 0 {
        return Err(Stop::NoCommand);
    }
    if rest.len() < width {
        return Err(Stop::Truncated);
    }
    Ok((known_command(rest), width))
}

// What stands at a position of the stream. Past the end there is no byte, and so none of a command.
fn decode(input: &[u8], at: usize) -> Result<(Command, usize), Stop>
    ensures { result ≡ decode_at input.now at }
{
    if input.len() <= at {
        return Err(Stop::NoCommand);
    }
    decode_first(&input[at..])
}

// The caller's bytes and the position of the next command.
#[derive(Clone, Copy)]
pub struct Reader<'a> {
    pub input: &'a [u8],
    pub at: usize,
}

// What stands where the reader is.
pub fn next_command<'a>(reader: Reader<'a>) -> Result<(Command, usize), Stop>
    ensures { result ≡ decode_at reader.entry.input.now reader.entry.at }
{
    decode(reader.input, reader.at)
}

// The same of bytes and a position: a reader is made and asked.
pub fn command_at(input: &[u8], at: usize) -> Result<(Command, usize), Stop>
    ensures { result ≡ decode_at input.now at }
{
    next_command(Reader { input, at })
}

// The number of a decode answer that ends the run.
pub fn stop_number(decoded: Result<(Command, usize), Stop>) -> u8
    ensures { result ≡ stop_of decoded }
{
    match decoded {
        Ok(_) => 0,
        Err(stop) => numbers::stop_number(stop),
    }
}

// Why a run ends at a position where there is no room for an answer.
pub fn stop_without_room(input: &[u8], at: usize) -> Stop
    ensures { result ≡ full_stop_of (decode_at input.now at) }
{
    if at >= input.len() {
        return Stop::NoCommand;
    }
    let width = command_width(input[at]);
    if width == 0 {
        return Stop::NoCommand;
    }
    if input.len() - at < width {
        return Stop::Truncated;
    }
    Stop::NoRoom
}

// ---- answers

// The bytes of an answer as three words, big-endian.
#[derive(Clone, Copy, Default)]
pub struct AnswerWords {
    pub head: u64,
    pub first: u64,
    pub second: u64,
}

// Kind, a, b, c and four zeros as one word; of a, b and c the low byte.
fn head_word(kind: u8, a: u64, b: u64, c: u64) -> u64
    ensures { result ≡ head_of kind a b c }
{
    u64::from_be_bytes([
        kind,
        (a % 256) as u8,
        (b % 256) as u8,
        (c % 256) as u8,
        0,
        0,
        0,
        0,
    ])
}

// An answer as its words.
fn trap_words(t: Trapped) -> AnswerWords
    ensures { result ≡ answer_words (fields_of (TrapAnswer t)) }
{
    let trap = t.trap;
    AnswerWords {
        head: head_word(2, numbers::trap_number(trap), numbers::trap_fault(trap), 0),
        first: t.address.0,
        second: t.tag,
    }
}

fn words_of(answer: Answer) -> AnswerWords
    ensures { result ≡ answer_words (fields_of answer) }
{
    match answer {
        Answer::Done(count) => AnswerWords {
            head: head_word(0, 0, 0, 0),
            first: count,
            second: 0,
        },
        Answer::Physical(t) => AnswerWords {
            head: head_word(1, t.attributes, 0, t.code),
            first: t.address.0,
            second: 0,
        },
        Answer::Trap(t) => trap_words(t),
        Answer::Read(first, second) => AnswerWords {
            head: head_word(3, 0, 0, 0),
            first,
            second,
        },
        Answer::Displaced(d) => AnswerWords {
            head: head_word(4, 0, d.partition, u64::from(d.real)),
            first: d.place,
            second: d.word,
        },
        Answer::Refused(refusal) => AnswerWords {
            head: head_word(5, numbers::refusal_number(refusal), 0, 0),
            ..AnswerWords::default()
        },
        Answer::NotInTable => AnswerWords {
            head: head_word(6, 0, 0, 0),
            ..AnswerWords::default()
        },
        Answer::Unsound => AnswerWords {
            head: head_word(5, 1, 0, 0),
            ..AnswerWords::default()
        },
    }
}

// The eight bytes of a value from a position, big-endian.
fn put_eight(output: &mut [u8], at: usize, v: u64)
    requires { at + 8 ≤ length output.old }
    ensures { output.new ≡ sets output.old at (bytes v) }
{
    output[at..at + 8].copy_from_slice(&v.to_be_bytes());
}

// The 24 bytes of an answer.
pub fn put_answer(output: &mut [u8], at: usize, answer: Answer)
    requires { at + 24 ≤ length output.old }
    ensures { output.new ≡ sets output.old at (answer_bytes answer) }
{
    let words = words_of(answer);
    put_eight(output, at, words.head);
    put_eight(output, at + 8, words.first);
    put_eight(output, at + 16, words.second);
}

// The 24 bytes of an answer, by value.
pub fn answer_bytes(answer: Answer) -> [u8; machine::ANSWER_BYTES]
    ensures { result ≡ answer_bytes answer }
{
    let mut output = [0u8; machine::ANSWER_BYTES];
    put_answer(&mut output, 0, answer);
    output
}
