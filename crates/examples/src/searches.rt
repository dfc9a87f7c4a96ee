// Which pages a search compares: those of live slots of the key's owner, up to the one found. The pages of another partition are not
// compared, though they are the same; nor is what an empty slot holds, though it looks like partition 0, context 0, page 0.
use crate::output::Output;
use crate::places::Owned;
use crate::{Side, entry, key};
use machine::Removal;
use std::io::Write;

// What stands in the first seven slots.
fn print_slots(out: &mut Output, slots: &Side) {
    for i in 0..7 {
        let x = tlb::slot_at(slots, i);
        let _ = write!(out, "  slot {i}: ");
        if tlb::is_live(x) {
            let page = Owned {
                partition: tlb::partition_of(x),
                address: x.page,
            };
            let _ = write!(out, "{page}");
        } else {
            let _ = write!(out, "empty");
        }
        let _ = writeln!(out);
    }
}

// What a search finds, and how many pages it compared. Of partition 0 the key's owner word is 0, as an empty slot's is.
fn print_search(out: &mut Output, slots: &Side, page: Owned) {
    let searched = search_count::search_any(slots, key(page.partition, 0, page.address));
    let _ = write!(out, "  search for {page}");
    let _ = match searched.found {
        Some(i) => write!(out, ": slot {i}"),
        None => write!(out, ": nothing"),
    };
    let _ = writeln!(out, ", pages compared: {}", searched.compared);
}

// Two partitions with the same unlocked 8 KB pages in turn, and then a page of partition 0 demapped; the slots behind these are empty.
fn fill(slots: &mut Side) {
    for address in [0x2000, 0x4000, 0x6000] {
        for partition in 0..2 {
            let _ = tlb_update::insert(slots, entry(key(partition, 0, address), 0));
        }
    }
    tlb_update::remove(slots, Removal::Page(key(0, 0, 0x4000)));
}

pub fn show(out: &mut Output) {
    let mut slots = [0; machine::SIDE_WORDS];
    fill(&mut slots);
    let _ = write!(out, "pages of two partitions, in context 0 of each:\n");
    print_slots(out, &slots);
    for (partition, address) in [(0, 0x2000), (0, 0x6000), (0, 0), (1, 0x6000), (1, 0x8000)] {
        print_search(out, &slots, Owned { partition, address });
    }
}
