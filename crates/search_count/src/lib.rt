// How many pages a search compares, for programs of ours that look at it: no call of the library names the number. Any slots and any key are
// taken; where the side is not sound or the key does not fit, nothing is found and nothing compared.
#![tactic(auto)]

ghost use Rattle.std.specs.Prelude.{◌≡◌, ◌&&◌, eqb};
ghost use Rattle.machine.specs.Slots.{slots_of};
ghost use Rattle.machine.specs.Sound.{side_sound};
ghost use Rattle.machine.specs.Questions.{key_of};
ghost use Rattle.search_count.specs.Counted.{fits, searched_any, counted_of};

use machine::{Key, Searched, VirtualAddress};

// Whether partition and context have room in an owner word.
fn fits(key: Key) -> bool
    ensures { result ≡ fits key }
{
    match key {
        Key::Virtual {
            partition,
            context,
            address: _,
        } => partition < 8 && context < 0x2000,
        Key::Real {
            partition,
            address: _,
        } => partition < 8,
    }
}

// Whether the unit's own search takes slots and key.
fn searchable(slots: &[u64], key: Key) -> bool
    ensures { result ≡ (fits key && side_sound (slots_of slots.now)) }
{
    if !fits(key) {
        return false;
    }
    let mut buckets = [0; 1024];
    let seen: &mut [u8] = &mut buckets;
    tlb_sound::side_sound(slots, seen, 1)
}

// What a search yields.
pub fn search_any(slots: &[u64], key: Key) -> Searched
    ensures { result ≡ searched_any key (slots_of slots.now) }
{
    if searchable(slots, key) {
        return tlb::search(slots, key);
    }
    Searched {
        found: None,
        compared: 0,
    }
}

// The same by numbers, as a C caller gives and takes them: the slot found, or the number of slots.
#[repr(C)]
#[derive(Clone, Copy)]
pub struct Counted {
    pub slot: usize,
    pub compared: usize,
}

pub fn search_count(slots: &[u64], real: u8, partition: u64, context: u64, address: u64) -> Counted
    ensures { result ≡ counted_of (key_of (eqb real 1) partition context (record { 0 = address })) (slots_of slots.now) }
{
    let key = operands::key_for(real == 1, partition, context, VirtualAddress(address));
    let searched = search_any(slots, key);
    let slot = searched.found.unwrap_or(slots.len() / machine::SLOT_WORDS);
    Counted {
        slot: slot,
        compared: searched.compared,
    }
}
