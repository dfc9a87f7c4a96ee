// The call of `search_count` for a C caller, in an archive of its own: a crate is a library or such an archive.
#![tactic(auto)]

ghost use Rattle.std.specs.Prelude.{◌≡◌, eqb};
ghost use Rattle.machine.specs.Slots.{slots_of};
ghost use Rattle.machine.specs.Questions.{key_of};
ghost use Rattle.search_count.specs.Counted.{counted_of};

use search_count::Counted;

// The slot found, or the number of slots; and how many pages were compared.
#[unsafe(no_mangle)]
pub extern "C" fn search_count(
    slots: &[u64],
    real: u8,
    partition: u64,
    context: u64,
    address: u64,
) -> Counted
    ensures { result ≡ counted_of (key_of (eqb real 1) partition context (record { 0 = address })) (slots_of slots.now) }
{
    search_count::search_count(slots, real, partition, context, address)
}
