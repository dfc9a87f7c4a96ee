// The calls of the miss handler that a buyer links from C or Rust, in an archive of their own: the unit's calls are then compiled as they are
// without them. What is said of the calls of `t1mmu` holds here, too.
#![tactic(auto)]

ghost use Rattle.std.specs.Prelude.{◌≡◌};
ghost use Rattle.machine.specs.State.{counts};
ghost use Rattle.machine.specs.Stream.{answer_bytes};
ghost use Rattle.machine.specs.Serve.{part_of, served_of};
ghost use Rattle.machine.specs.Places.{slots};
ghost use Rattle.machine.specs.Reference.{ServeTold, PartTold, Told};
ghost use Rattle.machine.specs.Demand3.{Demand3};

use machine::Part;

// Which part of which table is the entry of a miss; or a number and an empty part. It changes nothing.
#[unsafe(no_mangle)]
pub extern "C" fn t1mmu_hand_back<'a>(
    state: &[u64],
    strand: u8,
    side: u8,
    zero: &'a [u8],
    other: &'a [u8],
) -> Part
    ensures told { PartTold slots state.now strand side zero.now other.now result }
    ensures equal { result ≡ part_of counts state.now strand side zero.now other.now }
{
    miss_handler::part_of(state, strand, side, zero, other)
}

// The bytes of an answer, as C can be given them.
#[repr(C)]
#[derive(Clone, Copy)]
pub struct Answered {
    pub bytes: [u8; machine::ANSWER_BYTES],
}

// Serves a miss from one of two tables. The clauses are those of a run: what the ledger with its places tells, what the unit's definition
// comes to, and both over every list of runs and served misses.
#[unsafe(no_mangle)]
pub extern "C" fn t1mmu_serve<'a>(
    state: &mut [u64],
    strand: u8,
    side: u8,
    zero: &'a [u8],
    other: &'a [u8],
) -> Answered
    ensures told { ServeTold slots state.old strand side zero.now other.now
        state.new result.bytes }
    ensures words { state.new
        ≡ (served_of counts state.old strand side zero.now other.now).words }
    ensures bytes { result.bytes
        ≡ answer_bytes (served_of counts state.old strand side zero.now other.now).answer }
    ensures lists { Told counts slots }
    ensures demand3 { Demand3 counts }
{
    let answer = miss_handler::serve(state, strand, side, zero, other);
    Answered {
        bytes: wire::answer_bytes(answer),
    }
}
