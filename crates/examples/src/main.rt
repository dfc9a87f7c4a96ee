// Worked examples of the paper: which entry an insertion removes, and which it displaces, each on an empty side of 64 slots by itself
// and, beside it, by commands to the whole unit; and which pages a search compares. The numbers printed stand in keys and entries or are
// what the library answers.
#![tactic(auto)]

mod commands;
mod output;
mod places;
mod searches;

ghost use Rattle.std.specs.Prelude.{◌≡◌, false, ◌+◌, ◌-◌, ◌*◌, ◌<◌, ◌≤◌};
ghost use Rattle.machine.specs.Slots.{slots_of};
ghost use Rattle.search_count.specs.Counted.{searched_any};
ghost use Rattle.machine.specs.Insertion.{entry_of};
ghost use Rattle.machine.specs.declared.Key.TheVariants.{Virtual};
ghost use Rattle.examples.specs.Lookup.{found_slot};

use commands::Reply;
use machine::{Key, Removal, Slot, VirtualAddress};
use output::Output;
use places::{Page, Place};
use std::io::Write;

// The slots of one side, and the state of the whole unit.
type Side = [u64; machine::SIDE_WORDS];

type State = [u64; machine::STATE_WORDS];

// An address of a context of a partition.
fn key(partition: u64, context: u64, address: u64) -> Key
    ensures { result ≡ Virtual partition context (record { 0 = address }) }
{
    Key::Virtual {
        partition,
        context,
        address: VirtualAddress(address),
    }
}

// An unlocked entry whose word has v, cp and w set. Size code 0 is 8 KB and maps to 0x80000, 1 is 64 KB and maps to 0x100000, so that a load
// tells which one answers.
fn entry(key: Key, code: u64) -> Slot
    requires { code < 2 }
    ensures { result ≡ entry_of key false (0x8000000000080440 + code * 0x80001) }
{
    tlb_update::new_entry(key, false, 0x8000_0000_0008_0440 + code * 0x8_0001)
}

// The entry that answers to a key, or an empty slot.
fn lookup(slots: &[u64], key: Key) -> Slot
    ensures { result ≡ found_slot (slots_of slots.now) (searched_any key (slots_of slots.now)).found }
{
    match search_count::search_any(slots, key).found {
        Some(i) => tlb::slot_at(slots, i),
        None => Slot::default(),
    }
}

// What a lookup finds: an entry's page, or nothing.
fn print_lookup(out: &mut Output, slots: &Side, place: Place) {
    let x = lookup(slots, key(0, place.context, place.address));
    let _ = write!(out, "  lookup of 0x{place}: ");
    let _ = if tlb::is_live(x) {
        write!(out, "{}", Page(x))
    } else {
        write!(out, "nothing")
    };
    let _ = writeln!(out);
}

// Whether the side is sound, and how many entries are live: they are counted by removing them all.
fn print_side(out: &mut Output, slots: &mut Side) {
    let mut seen = [0; 1024];
    let negation = if tlb_sound::side_sound(slots, &mut seen, 1) {
        ""
    } else {
        "not "
    };
    let live = tlb_update::remove(slots, Removal::Everything);
    let _ = write!(out, "  {live} live, {negation}sound\n");
}

// Document 01's seventh example: an 8 KB page, and then the 64 KB page around it, each in the context given.
fn overlap(out: &mut Output, first: u64, second: u64) {
    let mut slots = [0; machine::SIDE_WORDS];
    let mut state = [0; machine::STATE_WORDS];
    let small = entry(key(0, first, 0x40_2000), 0);
    let large = entry(key(0, second, 0x40_0000), 1);
    let _ = tlb_update::insert(&mut slots, small);
    let _ = tlb_update::insert(&mut slots, large);
    state::reset(&mut state);
    commands::insert(&mut state, small);
    commands::insert(&mut state, large);
    let _ = write!(out, "{}, then {}:\n", Page(small), Page(large));
    print_lookup(
        out,
        &slots,
        Place {
            address: 0x40_2000,
            context: first,
        },
    );
    commands::print_load(
        out,
        &mut state,
        Place {
            address: 0x40_2008,
            context: first,
        },
    );
    print_side(out, &mut slots);
    commands::print_live(out, &mut state);
}

// The key of insertion q, from 1: 8 KB pages one after the other.
fn numbered(q: u64) -> Key
    requires { (1 ≤ q) × (q ≤ 66) }
    ensures { result ≡ Virtual 0 5 (record { 0 = (q - 1) * 8192 }) }
{
    key(0, 5, (q - 1) * 8192)
}

// From which slot an insertion displaced: that in which the new entry is found.
fn print_from_slot(out: &mut Output, new: Option<usize>) {
    if let Some(i) = new {
        let _ = write!(out, " from slot {i}");
    }
    let _ = writeln!(out);
}

// Insertion q, and what it displaces.
fn insertion(out: &mut Output, slots: &mut Side, state: &mut State, q: u64)
    requires { (1 ≤ q) × (q ≤ 66) }
{
    let new = numbered(q);
    if let Ok(Some(old)) = tlb_update::insert(slots, entry(new, 0)) {
        let _ = write!(out, "  insertion {q} displaces {}", Page(old));
        print_from_slot(out, search_count::search_any(slots, new).found);
    }
    if let Reply::Displaced(old) = commands::insert(state, entry(new, 0)) {
        let _ = write!(out, "  by commands: insertion {q} displaces 0x{old}");
        print_from_slot(
            out,
            search_count::search_any(commands::side_of(state), new).found,
        );
    }
}

// Document 01's eighth example: a side is filled with 64 unlocked entries, and two more displace those of slots 0 and 1.
fn displacement(out: &mut Output) {
    let mut slots = [0; machine::SIDE_WORDS];
    let mut state = [0; machine::STATE_WORDS];
    state::reset(&mut state);
    let _ = write!(
        out,
        "{}, and so on to {}:\n",
        Page(entry(numbered(1), 0)),
        Page(entry(numbered(66), 0))
    );
    for q in 1..=66 {
        insertion(out, &mut slots, &mut state, q);
    }
    print_side(out, &mut slots);
    commands::print_live(out, &mut state);
}

// The status is 0 whatever could be written.
fn main(rt: HostRuntime) {
    let mut out = Output(rt.stdout());
    overlap(&mut out, 5, 5);
    overlap(&mut out, 5, 6);
    displacement(&mut out);
    searches::show(&mut out);
}
