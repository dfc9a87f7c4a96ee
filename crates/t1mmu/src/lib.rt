// The calls that a buyer links from C or Rust. Nothing is asked of the numbers and lengths that a caller gives; every result, state word and
// output byte is by a definition of the unit, and again by the second texts (told). A slice is a pointer and a length to C; with length 0
// the pointer is not read.
#![tactic(auto)]

ghost use Rattle.std.specs.Prelude.{◌≡◌, true, false, length};
ghost use Rattle.machine.specs.State.{counts, state_length, reset_of, reset_number};
ghost use Rattle.machine.specs.Stream.{run_of};
ghost use Rattle.machine.specs.Words.{unpacked, packed, fields};
ghost use Rattle.machine.specs.Places.{slots, reference_start, reference_words};
ghost use Rattle.machine.specs.Reference.{RunTold, ResetTold, Told};
ghost use Rattle.machine.specs.Demand2.{IsBits, HasBits, Fields};
ghost use Rattle.machine.specs.Demand3.{Demand3};
ghost use Rattle.machine.specs.Guests.{GuestsConfined, MarkAlone};
ghost use Rattle.t1mmu.specs.Equal.{Equal};
ghost use Rattle.t1mmu.specs.Version.{version};

use machine::{Report, Tte};

// The version of these calls: major * 65536 + minor * 256 + patch.
#[unsafe(no_mangle)]
pub extern "C" fn t1mmu_version() -> u32
    ensures { result ≡ version }
{
    0x04_00_00
}

// How many words a state has: those of an empty ledger with its places.
#[unsafe(no_mangle)]
pub extern "C" fn t1mmu_state_words() -> usize
    ensures equal { result ≡ state_length }
    ensures told { result ≡ length (reference_words (reference_start slots)) }
{
    machine::STATE_WORDS
}

// Fills a state: mode 2, all else 0. A state of another length is left as it is, and the answer is 1.
#[unsafe(no_mangle)]
pub extern "C" fn t1mmu_reset(state: &mut [u64]) -> u8
    ensures words { state.new ≡ reset_of counts state.old }
    ensures number { result ≡ reset_number counts state.old }
    ensures told { ResetTold slots state.old state.new result }
{
    state::reset(state)
}

// Runs the commands of the input on the state, of a stream without the hypervisor's mark. `told` holds it to the ledger with its places, in
// no word of the unit; `equal` to the unit's definition, of which `lists` says the same over every list of runs, and `demand3` what document
// 01's demand 3 asks. `guests` is about lists of such calls, by what `told` says of each.
#[unsafe(no_mangle)]
pub extern "C" fn t1mmu_run(state: &mut [u64], input: &[u8], output: &mut [u8]) -> Report
    ensures told { RunTold false slots state.old input.now output.old
        state.new output.new result }
    ensures equal { Equal (run_of false counts state.old input.now output.old)
        state.new output.new result }
    ensures lists { Told counts slots }
    ensures demand3 { Demand3 counts }
    ensures guests { GuestsConfined slots }
    ensures mark { MarkAlone }
{
    stream::run(state, input, output, false)
}

// The same, a second call for C, of a stream that the caller marks as the hypervisor's: its invalidations are permitted, and nothing else is that is not in the
// other call.
#[unsafe(no_mangle)]
pub extern "C" fn t1mmu_run_hypervisor(state: &mut [u64], input: &[u8], output: &mut [u8]) -> Report
    ensures told { RunTold true slots state.old input.now output.old
        state.new output.new result }
    ensures equal { Equal (run_of true counts state.old input.now output.old)
        state.new output.new result }
    ensures lists { Told counts slots }
    ensures demand3 { Demand3 counts }
    ensures mark { MarkAlone }
{
    stream::run(state, input, output, true)
}

// All fields of an entry word. Packed again they are the word.
#[unsafe(no_mangle)]
pub extern "C" fn t1mmu_unpack(word: u64) -> Tte
    ensures fields { result ≡ unpacked word }
    ensures again { packed result ≡ word }
    ensures told { Fields (IsBits word) result }
{
    tte::unpack(word)
}

// The entry word of the fields; what does not fit its width is dropped. Where each fits, unpacked again they are the fields.
#[unsafe(no_mangle)]
pub extern "C" fn t1mmu_pack(t: Tte) -> u64
    ensures word { result ≡ packed t }
    ensures again { fields t ≡ true → unpacked result ≡ t }
    ensures told { Fields (HasBits result) t }
{
    tte::pack(t)
}
