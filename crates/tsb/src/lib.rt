// TSB pointers: document 01, "The stream", its paragraph on pointers.
#![tactic(auto)]

ghost use Rattle.std.specs.Prelude.{◌≡◌, cond, ◌+◌, ◌*◌, ◌^◌, ◌<◌, eqb};
ghost use Rattle.machine.specs.Words.{bits};
ghost use Rattle.machine.specs.Registers.{tag_access, tag_address};
ghost use Rattle.machine.specs.State.{state_in};
ghost use Rattle.machine.specs.Tsb.{tsb_offset, tsb_pointer, miss_context, tsb_base, tsb_code, pointer};

use machine::{Below, Side, Strand};
use state::State;

// Which of the two page sizes of a configuration: 0 is ps0, 1 is ps1.
pub type PageSize = Below<2>;

// How many entries a TSB has.
pub fn tsb_entries(n: u64) -> u64
    requires { n < 16 }
    ensures { result ≡ 2 ^ (9 + n) }
{
    512 << n
}

// Where in its TSB the entry of an address stands.
pub fn offset_in_tsb(n: u64, code: u64, address: u64) -> u64
    requires { n < 16 }
    ensures { result ≡ tsb_offset n code address }
{
    let page = address >> pages::page_shift(code);
    16 * (page % tsb_entries(n))
}

// A TSB pointer from a base register.
fn tsb_pointer(base: u64, code: u64, address: u64) -> u64
    ensures { result ≡ tsb_pointer base code address }
{
    let n = base % 16;
    let shift = 13 + n;
    (base >> shift << shift) + offset_in_tsb(n, code, address)
}

// 1 where a context is not zero: it picks among the base and configuration registers.
pub fn other_set(context: u64) -> u8
    ensures { (result ≡ cond (eqb context 0) 0 1) × (result < 2) }
{
    if context == 0 {
        return 0;
    }
    1
}

// A configuration's size code.
fn size_code(configuration: u64, size: PageSize) -> u64
    ensures { result ≡ bits (8 * size) 3 configuration }
{
    if size.number() == 0 {
        return configuration % 8;
    }
    (configuration >> 8) % 8
}

// A miss, from the side's tag access: its context, its address, and the base and the size code that the context picks. Size 0 is ps0, 1 is ps1.
pub fn miss_context(state: &State, strand: Strand, side: Side) -> u64
    ensures { result ≡ miss_context (state_in state.now).registers strand side }
{
    operands::tag_context(operands::tag_of(state, strand, side))
}

pub fn miss_address(state: &State, strand: Strand, side: Side) -> u64
    ensures { result ≡ (tag_address (tag_access (state_in state.now).registers strand side)).0 }
{
    operands::tag_address(operands::tag_of(state, strand, side)).0
}

pub fn tsb_base(state: &State, strand: Strand, side: Side, size: PageSize) -> u64
    ensures { result ≡ tsb_base (state_in state.now).registers strand side size }
{
    let other = other_set(miss_context(state, strand, side));
    let number = machine::TSB_BASE + 4 * side.number() + 2 * other + size.number();
    state::read_register(state, strand, number)
}

pub fn tsb_code(state: &State, strand: Strand, side: Side, size: PageSize) -> u64
    ensures { result ≡ tsb_code (state_in state.now).registers strand side size }
{
    let other = other_set(miss_context(state, strand, side));
    let number = machine::TSB_CONFIGURATION + 2 * side.number() + other;
    size_code(state::read_register(state, strand, number), size)
}

// A side's pointer.
pub fn pointer_of(state: &State, strand: Strand, side: Side, size: PageSize) -> u64
    ensures { result ≡ pointer (state_in state.now).registers strand side size }
{
    let base = tsb_base(state, strand, side, size);
    let code = tsb_code(state, strand, side, size);
    tsb_pointer(base, code, miss_address(state, strand, side))
}
