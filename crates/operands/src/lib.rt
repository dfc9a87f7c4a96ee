// What a command's operands and a strand's registers pick: sides, contexts, keys and new entries.
#![tactic(auto)]

ghost use Rattle.std.specs.Prelude.{◌≡◌, ◌<◌};
ghost use Rattle.machine.specs.Registers.{selected, tag_access, tag_address, tag_context};
ghost use Rattle.machine.specs.State.{state_in};
ghost use Rattle.machine.specs.Questions.{kind_side, flag_real, flag_locked, key_of, insertion};

use machine::{Key, Side, Slot, Strand, VirtualAddress};
use state::State;

// The side of an access: a fetch is kind 0.
pub fn access_side(kind: u8) -> Side
    ensures { result ≡ kind_side kind }
{
    if kind == 0 { Side::at(0) } else { Side::at(1) }
}

// Flags of an insertion: 1 real, 2 locked; of a demap page: 1 real.
pub fn flag_real(flags: u8) -> bool
    ensures { result ≡ flag_real flags }
{
    flags % 2 == 1
}

fn flag_locked(flags: u8) -> bool
    ensures { result ≡ flag_locked flags }
{
    flags / 2 % 2 == 1
}

// The context that a selector picks: primary, secondary, or 0 for the nucleus.
pub fn selected_context(state: &State, strand: Strand, selector: u8) -> u64
    ensures { result ≡ selected (state_in state.now).registers strand selector }
{
    if selector == 2 {
        return 0;
    }
    if selector == 1 {
        return state::read_register(state, strand, machine::SECONDARY_CONTEXT);
    }
    state::read_register(state, strand, machine::PRIMARY_CONTEXT)
}

// What is asked for at an address that a guest gives.
pub fn key_for(real: bool, partition: u64, context: u64, address: VirtualAddress) -> Key
    ensures { result ≡ key_of real partition context address }
{
    if real {
        return Key::Real {
            partition,
            address: pages::untranslate(address),
        };
    }
    Key::Virtual {
        partition,
        context,
        address,
    }
}

// The side's tag access register, and what stands in it.
pub fn tag_of(state: &State, strand: Strand, side: Side) -> u64
    ensures { result ≡ tag_access (state_in state.now).registers strand side }
{
    state::read_register(state, strand, machine::TAG_ACCESS + side.number())
}

pub fn tag_address(tag: u64) -> VirtualAddress
    ensures { result ≡ tag_address tag }
{
    VirtualAddress(tag / 0x2000 * 0x2000)
}

pub fn tag_context(tag: u64) -> u64
    ensures { result ≡ tag_context tag }
{
    tag % 0x2000
}

// The entry of an insertion, from the strand's partition and tag access.
pub fn entry_for(state: &State, strand: Strand, side: Side, flags: u8, word: u64) -> Slot
    ensures { result ≡ insertion (state_in state.now) strand side flags word }
{
    let tag = tag_of(state, strand, side);
    let partition = state::read_register(state, strand, machine::PARTITION);
    let key = key_for(
        flag_real(flags),
        partition,
        tag_context(tag),
        tag_address(tag),
    );
    tlb_update::new_entry(key, flag_locked(flags), word)
}
