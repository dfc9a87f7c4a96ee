// A miss, served from the guest's TSB, which the caller lends as two tables: document 02, U1.
#![tactic(auto)]

ghost use Rattle.std.specs.Prelude.{Ok, ◌≡◌, cond, ◌%◌, ◌^◌, ◌<◌, eqb, length};
ghost use Rattle.std.specs.Result.{result_and};
ghost use Rattle.machine.specs.Words.{bits};
ghost use Rattle.machine.specs.State.{counts, state_in};
ghost use Rattle.machine.specs.Questions.{ask};
ghost use Rattle.machine.specs.Serve.{table_used, table_n, table_length, entry_start, asked_table, no_part, part_of, part_bytes};
ghost use Rattle.machine.specs.Serve.{tag_fits, word_fits, entry_fits, serve_entry, served_of};
ghost use Rattle.state.specs.Calls.{SoundIn, Did};
ghost use Rattle.miss_handler.specs.Ready.{Ready, entry_bytes};

use machine::{Answer, Part, Refusal, Side, Strand};
use state::State;
use tsb::PageSize;

// ---- the table, and the place in it

// The table of the context that missed.
fn table_used<'a>(
    state: &State,
    strand: Strand,
    side: Side,
    zero: &'a [u8],
    other: &'a [u8],
) -> &'a [u8]
    ensures { result.now ≡ table_used (state_in state.now).registers strand side
        zero.now other.now }
{
    if tsb::miss_context(state, strand, side) == 0 {
        return zero;
    }
    other
}

// N of ps0.
fn table_n(state: &State, strand: Strand, side: Side) -> u64
    ensures { result ≡ table_n (state_in state.now).registers strand side }
{
    tsb::tsb_base(state, strand, side, PageSize::at(0)) % 16
}

// How long the table used must be.
fn table_length(state: &State, strand: Strand, side: Side) -> usize
    ensures { result ≡ table_length (state_in state.now).registers strand side }
{
    let entries = tsb::tsb_entries(table_n(state, strand, side));
    machine::TSB_ENTRY_BYTES * (entries as usize)
}

// Where in it the 16 bytes for the ps0 pointer stand.
fn entry_start(state: &State, strand: Strand, side: Side) -> usize
    ensures { result ≡ entry_start (state_in state.now).registers strand side }
{
    let n = table_n(state, strand, side);
    let code = tsb::tsb_code(state, strand, side, PageSize::at(0));
    let address = tsb::miss_address(state, strand, side);
    tsb::offset_in_tsb(n, code, address) as usize
}

// Numbers 5, 6 and 14.
fn ask_table<'a>(
    state: &State,
    strand: u8,
    side: u8,
    zero: &'a [u8],
    other: &'a [u8],
) -> Result<(Strand, Side), Refusal>
    ensures { result ≡ result_and (ask (asked_table (state_in state.now) strand side
        zero.now other.now)) (Ok (strand, side)) }
{
    let (strand, side) = questions::ask_side(strand, side)?;
    let table = table_used(state, strand, side, zero, other);
    if table.len() != table_length(state, strand, side) {
        return Err(Refusal::Table);
    }
    Ok((strand, side))
}

// ---- handing back

// The 16 bytes of a miss that passed: a part of the table used.
fn entry_of<'a>(
    state: &State,
    strand: Strand,
    side: Side,
    zero: &'a [u8],
    other: &'a [u8],
) -> &'a [u8]
    requires { Ready state.now strand side zero.now other.now }
    ensures bytes { result.now ≡ entry_bytes (state_in state.now).registers strand side
        zero.now other.now }
    ensures count { length result.now ≡ 16 }
{
    let table = table_used(state, strand, side, zero, other);
    let start = entry_start(state, strand, side);
    let end = start + machine::TSB_ENTRY_BYTES;
    &table[start..end]
}

// The 16 bytes; an empty part where a question refused.
pub fn hand_back<'a>(
    state: &[u64],
    strand: u8,
    side: u8,
    zero: &'a [u8],
    other: &'a [u8],
) -> &'a [u8]
    ensures { result.now ≡ part_bytes
        (part_of counts state.now strand side zero.now other.now)
        zero.now other.now }
{
    let Some(words) = state::sound(state) else {
        return &zero[0..0];
    };
    match ask_table(words, strand, side, zero, other) {
        Ok(asked) => {
            // not in the pattern: its parts have no names there for the proof
            let (strand, side) = asked;
            entry_of(words, strand, side, zero, other)
        }
        Err(_) => &zero[0..0],
    }
}

// A number, and nothing.
fn no_part(number: u8) -> Part
    ensures { result ≡ no_part number }
{
    Part {
        number,
        other: 0,
        start: 0,
        length: 0,
    }
}

// The same part, as which table, where in it and how long, with the number of a refusal.
pub fn part_of<'a>(state: &[u64], strand: u8, side: u8, zero: &'a [u8], other: &'a [u8]) -> Part
    ensures { result ≡ part_of counts state.now strand side zero.now other.now }
{
    let Some(words) = state::sound(state) else {
        return no_part(1);
    };
    match ask_table(words, strand, side, zero, other) {
        Ok(asked) => {
            let (strand, side) = asked;
            Part {
                number: 0,
                other: tsb::other_set(tsb::miss_context(words, strand, side)),
                start: entry_start(words, strand, side),
                length: machine::TSB_ENTRY_BYTES,
            }
        }
        Err(refusal) => no_part(numbers::refusal_number(refusal) as u8),
    }
}

// ---- whether an entry fits

// The tag's address: of a 256 MB page (code 5) from bit 28 up.
fn address_fits(code: u64, address: u64, tag: u64) -> bool
    ensures { result ≡ cond (eqb code 5) (eqb (bits 6 36 tag) (bits 28 36 address))
        (eqb (tag % 2 ^ 42) (bits 22 42 address)) }
{
    if code == 5 {
        return (tag >> 6) % 0x10_0000_0000 == (address >> 28) % 0x10_0000_0000;
    }
    tag % 0x400_0000_0000 == (address >> 22) % 0x400_0000_0000
}

// The tag: the context from bit 48 up, zeros in 47:42, then the address.
fn tag_fits(code: u64, context: u64, address: u64, tag: u64) -> bool
    ensures { result ≡ tag_fits code context address tag }
{
    tag >> 48 == context && ((tag >> 42) % 64 == 0 && address_fits(code, address, tag))
}

// The word: v is set, and its size code is ps0's.
fn word_fits(code: u64, word: u64) -> bool
    ensures { result ≡ word_fits code word }
{
    word >> 63 == 1 && word % 16 == code
}

// An entry, its tag and its word, against the miss.
fn entry_fits(state: &State, strand: Strand, side: Side, tag: u64, word: u64) -> bool
    ensures { result ≡ entry_fits (state_in state.now).registers strand side tag word }
{
    let code = tsb::tsb_code(state, strand, side, PageSize::at(0));
    let context = tsb::miss_context(state, strand, side);
    let address = tsb::miss_address(state, strand, side);
    tag_fits(code, context, address, tag) && word_fits(code, word)
}

// ---- serving

// An entry goes in, unlocked and virtual, where it fits.
fn serve_entry(state: &mut State, strand: Strand, side: Side, tag: u64, word: u64) -> Answer
    requires { SoundIn state.old }
    ensures { Did state.new result
        (serve_entry (state_in state.old) strand side tag word) }
{
    if !entry_fits(state, strand, side, tag, word) {
        return Answer::NotInTable;
    }
    mmu::insert(state, strand, side, 0, word)
}

// Serves a miss. A refusal changes nothing.
pub fn serve<'a>(state: &mut [u64], strand: u8, side: u8, zero: &'a [u8], other: &'a [u8]) -> Answer
    ensures words { state.new ≡
        (served_of counts state.old strand side zero.now other.now).words }
    ensures answer { result ≡
        (served_of counts state.old strand side zero.now other.now).answer }
{
    let Some(words) = state::sound_mut(state) else {
        return Answer::Unsound;
    };
    match ask_table(words, strand, side, zero, other) {
        Ok(asked) => {
            let (strand, side) = asked;
            let entry = entry_of(words, strand, side, zero, other);
            let tag = wire::eight_bytes(entry, 0);
            let word = wire::eight_bytes(entry, 8);
            serve_entry(words, strand, side, tag, word)
        }
        Err(refusal) => Answer::Refused(refusal),
    }
}
