// Removal and insertion on the slots of one side: document 01, "Insertion and removal". Any number of slots.
#![tactic(auto)]

ghost use Rattle.std.specs.Prelude.{◌≡◌, not, ◌&&◌, eqb, ◌+◌, ◌*◌, ◌≤◌, ◌%◌, length};
ghost use Rattle.laws.specs.Tests.{tick, count, first};
ghost use Rattle.machine.specs.Slots.{slots_of, words_of, slot_of, with_slot, on_slot, is_live, partition_of, is_locked, answers_to};
ghost use Rattle.machine.specs.Insertion.{overlaps, emptied_by, removed, removes};
ghost use Rattle.machine.specs.Insertion.{entry_of, candidate, wants, choice, stored, displaced_by, inserted, placed, has_slot};
ghost use Rattle.tlb.specs.Rows.{row_slot};
ghost use Rattle.tlb_update.specs.Sieves.{spans_for, passes, Sifts, NonePass};

use machine::{Choice, Key, NoSlot, Removal, Slot, Wanted};
use tlb::Row;

// A live slot of the owner.
fn owned_by(x: Slot, owner: u64) -> bool
    ensures { result ≡ (is_live x && eqb x.owner owner) }
{
    tlb::is_live(x) && x.owner == owner
}

// The entry that answers to a key, whether its slot is sound or not; `tlb::answers` is of sound slots alone. What passes the sieve mostly has
// the page: that is asked first.
#[tactic(auto, unfolding(machine::specs::Slots::answers_to, machine::specs::Slots::is_compared))]
fn answers(x: Slot, key: Key) -> bool
    ensures { result ≡ answers_to key x }
{
    tlb::holds(x, tlb::key_address(key)) && (tlb::is_live(x) && tlb::agrees(x, key))
}

// A partition's unlocked entry.
fn unlocked_of(x: Slot, partition: u64) -> bool
    ensures { result ≡ (is_live x && (eqb (partition_of x) partition && not (is_locked x))) }
{
    tlb::is_live(x) && (tlb::partition_of(x) == partition && !tlb::is_locked(x))
}

// Whether a removal takes the slot's entry: by its kind, as the definition `removes` has it.
#[tactic(auto, unfolding(machine::specs::Insertion::removes))]
fn takes(which: Removal, x: Slot) -> bool
    ensures { result ≡ removes which x }
{
    match which {
        Removal::Page(key) => answers(x, key),
        Removal::Context { partition, context } => owned_by(
            x,
            tlb::owner_word(partition, false, context),
        ),
        Removal::Unlocked { partition } => unlocked_of(x, partition),
        Removal::Everything => tlb::is_live(x),
        Removal::Overlapping(new) => tlb::overlap(new, x),
    }
}

// What every slot that a removal takes has. It turns down most slots at once, and the others are asked in full.
#[derive(Clone, Copy)]
enum Sieve {
    // a page start whose xor with this one is at most the larger of the two sizes
    Pages { page: u64, size: u64 },
    // an owner whose xor with this one is at most the spread
    Owners { owner: u64, spread: u64 },
}

// The sieve of a removal. An address is a page of one byte.
fn sieve_of(which: Removal) -> Sieve
    ensures { Sifts which result }
{
    match which {
        Removal::Page(key) => Sieve::Pages {
            page: tlb::key_address(key),
            size: 1,
        },
        Removal::Context { partition, context } => Sieve::Owners {
            owner: tlb::owner_word(partition, false, context),
            spread: 0,
        },
        Removal::Unlocked { partition } => Sieve::Owners {
            owner: partition << 14,
            spread: 0x3FFF,
        },
        Removal::Everything => Sieve::Owners {
            owner: 0,
            spread: u64::MAX,
        },
        Removal::Overlapping(new) => Sieve::Pages {
            page: new.page,
            size: pages::page_size(tlb::size_code(new)),
        },
    }
}

// The larger of the sieve's size and each page size, by size code; a sieve of owners asks none.
#[tactic(auto, unfolding(crate::specs::Sieves::spans_for))]
fn spans_of(sieve: Sieve) -> [u64; 16]
    ensures { result ≡ spans_for sieve }
{
    match sieve {
        Sieve::Pages { size, .. } => tlb::spans(size),
        Sieve::Owners { .. } => [0; 16],
    }
}

// Empties slot i where the removal takes it; 1 where it did.
fn remove_at(slots: &mut [u64], i: usize, which: Removal) -> u64
    requires { i * 4 + 4 ≤ length slots.old }
    ensures words { slots.new ≡ on_slot (emptied_by (removes which)) i slots.old }
    ensures count { result ≡ tick (removes which (slot_of slots.old i)) }
{
    let x = tlb::slot_at(slots, i);
    if takes(which, x) {
        tlb::store_slot(slots, i, Slot::default());
        return 1;
    }
    0
}

// Whether a slot passes the sieve; the spans are the sieve's.
#[tactic(auto, unfolding(crate::specs::Sieves::passes, crate::specs::Sieves::spans_for))]
fn passes(row: &Row, sieve: Sieve, span: &[u64; 16]) -> bool
    requires { span.now ≡ spans_for sieve }
    ensures { result ≡ passes sieve (row_slot row.now) }
{
    match sieve {
        Sieve::Pages { page, .. } => page ^ row[1] <= span[(row[2] % 16) as usize],
        Sieve::Owners { owner, spread } => owner ^ row[0] <= spread,
    }
}

// A slot, from the one given on, up to which none passes. Most slots pass no sieve: four a turn.
fn next(slots: &[u64], from: usize, sieve: Sieve, span: &[u64; 16]) -> usize
    requires { (from * 4 ≤ length slots.now) × (span.now ≡ spans_for sieve) }
    ensures { NonePass sieve slots.now from result }
{
    let turns = tlb::rows(slots)[from..].as_chunks::<4>().0;
    for (k, turn) in turns.iter().enumerate() {
        if !tlb::none_passes(turn, |row| passes(row, sieve, span)) {
            return from + k * 4;
        }
    }
    from + turns.len() * 4
}

// Empties every slot that the removal takes, and counts them.
pub fn remove(slots: &mut [u64], which: Removal) -> u64
    requires { length slots.old % 4 ≡ 0 }
    ensures words { slots.new ≡ words_of (removed (removes which) (slots_of slots.old)) }
    ensures count { result ≡ count (removes which) (slots_of slots.old) }
{
    let sieve = sieve_of(which);
    let span = spans_of(sieve);
    let n = slots.len() / machine::SLOT_WORDS;
    let mut taken = 0;
    // no counted loop: `next` says up to which slot none passes
    let mut i = next(slots, 0, sieve, &span);
    while i < n {
        taken += remove_at(slots, i, which);
        i = next(slots, i + 1, sieve, &span);
    }
    taken
}

// The entry of an insertion: at the start of its page, by the word's size code, and with its used bit set.
#[tactic(auto, unfolding(machine::specs::Insertion::entry_of))]
pub fn new_entry(key: Key, locked: bool, word: u64) -> Slot
    ensures { result ≡ entry_of key locked word }
{
    Slot {
        owner: tlb::key_owner(key),
        page: pages::page_start(word % 16, tlb::key_address(key)),
        word,
        flags: if locked { 3 } else { 2 },
    }
}

// An entry that may be displaced.
fn displaceable(old: Slot) -> bool
    ensures { result ≡ candidate old }
{
    tlb::is_live(old) && !tlb::is_locked(old)
}

// Whether the slot is what a choice looks for.
#[tactic(auto, unfolding(machine::specs::Insertion::wants))]
fn wanted_slot(wanted: Wanted, x: Slot) -> bool
    ensures { result ≡ wants candidate wanted x }
{
    match wanted {
        Wanted::Empty => !tlb::is_live(x),
        Wanted::Unused => displaceable(x) && !tlb::is_used(x),
        Wanted::Candidate => displaceable(x),
    }
}

// The lowest slot that is wanted.
fn lowest(slots: &[u64], wanted: Wanted) -> Option<usize>
    ensures { result ≡ first (wants candidate wanted) (slots_of slots.now) }
{
    let n = slots.len() / machine::SLOT_WORDS;
    // document 01 names this form: a loop that yields the chosen slot by break
    let mut i = 0;
    let found = loop {
        if i == n {
            break None;
        }
        let x = tlb::slot_at(slots, i);
        if wanted_slot(wanted, x) {
            break Some(i);
        }
        i += 1;
    };
    found
}

// The slot that an insertion takes.
#[tactic(auto, unfolding(machine::specs::Insertion::choice))]
fn choose(slots: &[u64]) -> Choice
    ensures { result ≡ choice candidate (slots_of slots.now) }
{
    if let Some(slot) = lowest(slots, Wanted::Empty) {
        return Choice::Empty(slot);
    }
    if let Some(slot) = lowest(slots, Wanted::Unused) {
        return Choice::Unused(slot);
    }
    match lowest(slots, Wanted::Candidate) {
        Some(slot) => Choice::Cleared(slot),
        None => Choice::Full,
    }
}

// Whether a slot is to be had for the new entry (number 13). Nothing changes. Most sides have a candidate in a low slot, so that is asked first.
pub fn has_slot(slots: &[u64], new: Slot) -> bool
    ensures { result ≡ has_slot candidate new (slots_of slots.now) }
{
    lowest(slots, Wanted::Candidate).is_some()
        || (lowest(slots, Wanted::Empty).is_some() || !tlb::overlaps_none(slots, new, 0))
}

// Puts the new entry into slot i, and hands back what stood there.
fn displace(slots: &mut [u64], i: usize, new: Slot) -> Slot
    requires { i * 4 + 4 ≤ length slots.old }
    ensures words { slots.new ≡ with_slot slots.old i new }
    ensures old { result ≡ slot_of slots.old i }
{
    let old = tlb::slot_at(slots, i);
    tlb::store_slot(slots, i, new);
    old
}

// Puts the new entry into the slot chosen.
fn place(slots: &mut [u64], new: Slot, chosen: Choice) -> Result<Option<Slot>, NoSlot>
    requires { (length slots.old % 4 ≡ 0) × (chosen ≡ choice candidate (slots_of slots.old)) }
    ensures words { slots.new ≡ words_of (stored new (slots_of slots.old) chosen) }
    ensures placed { result ≡ displaced_by (slots_of slots.old) chosen }
{
    match chosen {
        Choice::Empty(i) => {
            tlb::store_slot(slots, i, new);
            Ok(None)
        }
        Choice::Unused(i) => Ok(Some(displace(slots, i, new))),
        Choice::Cleared(i) => {
            let old = tlb::slot_at(slots, i);
            tlb::clear_used(slots);
            tlb::store_slot(slots, i, new);
            Ok(Some(old))
        }
        Choice::Full => Err(NoSlot),
    }
}

// Removes what the new entry overlaps. Most insertions overlap nothing, and the test is faster than the removal.
#[tactic(auto, unfolding(machine::specs::Insertion::removes))]
fn make_way(slots: &mut [u64], new: Slot)
    requires { length slots.old % 4 ≡ 0 }
    ensures { slots.new ≡ words_of (removed (overlaps new) (slots_of slots.old)) }
{
    if !tlb::overlaps_none(slots, new, 0) {
        remove(slots, Removal::Overlapping(new));
    }
}

// Removes what the new entry overlaps, and puts it into the slot that is then chosen.
pub fn insert(slots: &mut [u64], new: Slot) -> Result<Option<Slot>, NoSlot>
    requires { length slots.old % 4 ≡ 0 }
    ensures words { slots.new ≡ words_of (inserted candidate new (slots_of slots.old)) }
    ensures placed { result ≡ placed candidate new (slots_of slots.old) }
{
    make_way(slots, new);
    let chosen = choose(slots);
    place(slots, new, chosen)
}
