// Questions 5 to 13, 15 and 16, asked on the state as it is before a command acts: document 01, "Questions before a command acts".
#![tactic(auto)]

ghost use Rattle.std.specs.Prelude.{◌≡◌, leb, Ok};
ghost use Rattle.std.specs.Result.{result_and};
ghost use Rattle.machine.specs.State.{state_in};
ghost use Rattle.machine.specs.Registers.{mode};
ghost use Rattle.machine.specs.Permission.{guest_writable, least_mode};
ghost use Rattle.machine.specs.Questions.{selector_fits, nucleus_fetch, size_fits, ask, verdict};
ghost use Rattle.questions.specs.Verdicts.{Either, asked_strand, asked_side, asked_context, asked_open};
ghost use Rattle.machine.specs.declared.Command.TheVariants as command;

use machine::{Command, Refusal, Side, Strand, VirtualAddress};
use state::State;

// Number 7: one of three selectors; the instruction side has no secondary context.
fn selector_fits(side: Side, selector: u8) -> bool
    ensures { result ≡ selector_fits side selector }
{
    let side = side.number();
    selector < 3 && !(side == 0 && selector == 1)
}

// Number 8: 1, 2, 4 or 8 bytes; a fetch takes 4.
fn size_fits(kind: u8, size: u8) -> bool
    ensures { result ≡ size_fits kind size }
{
    size < 4 && (kind != 0 || size == 2)
}

// Number 7: a user's fetch by the nucleus context.
fn is_nucleus_fetch(state: &State, strand: Strand, kind: u8, selector: u8) -> bool
    ensures { result ≡ nucleus_fetch (state_in state.now).registers strand kind selector }
{
    kind == 0
        && (selector == 2 && state::read_register(state, strand, machine::MODE) == machine::USER)
}

// Number 16: the strand's mode may do what is open to guests, or what is not.
fn mode_allows(state: &State, strand: Strand, guest: bool) -> bool
    ensures { result ≡ leb (least_mode guest) (mode (state_in state.now).registers strand) }
{
    let mode = state::read_register(state, strand, machine::MODE);
    machine::HYPERPRIVILEGED <= mode || (guest && machine::PRIVILEGED <= mode)
}

// The same of a write, by the least mode that the register takes: by `mode_allows` a write takes 6 % more.
fn mode_writes(state: &State, strand: Strand, number: u8) -> bool
    ensures { result ≡ leb (least_mode (guest_writable number)) (mode (state_in state.now).registers strand) }
{
    let least = if registers::is_guest_writable(number) {
        machine::PRIVILEGED
    } else {
        machine::HYPERPRIVILEGED
    };
    least <= state::read_register(state, strand, machine::MODE)
}

// 5, with which commands by a strand begin.
fn ask_strand(strand: u8) -> Result<Strand, Refusal>
    ensures { result ≡ result_and (ask (asked_strand strand)) (Ok strand) }
{
    Strand::new(strand).ok_or(Refusal::Strand)
}

fn ask_write(state: &State, strand: u8, number: u8, value: u64) -> Result<(), Refusal>
    ensures { Either result (state_in state.now) (command.Write strand number value) }
{
    let strand = ask_strand(strand)?;
    if !registers::is_writable(number) {
        return Err(Refusal::Register);
    }
    if !registers::is_allowed(number, value) {
        return Err(Refusal::Value);
    }
    if !mode_writes(state, strand, number) {
        return Err(Refusal::Permission);
    }
    Ok(())
}

// 5 and 6, with which commands on a side begin, and serving.
pub fn ask_side(strand: u8, side: u8) -> Result<(Strand, Side), Refusal>
    ensures { result ≡ result_and (ask (asked_side strand side)) (Ok (strand, side)) }
{
    let strand = ask_strand(strand)?;
    let side = Side::new(side).ok_or(Refusal::Side)?;
    Ok((strand, side))
}

fn ask_insert(state: &State, strand: u8, side: u8, flags: u8, word: u64) -> Result<(), Refusal>
    ensures { Either result (state_in state.now) (command.Insert strand side flags word) }
{
    let (strand, side) = ask_side(strand, side)?;
    if 4 <= flags {
        return Err(Refusal::Operand);
    }
    if !mode_allows(state, strand, flags == 0) {
        return Err(Refusal::Permission);
    }
    if !pages::in_range(operands::tag_address(operands::tag_of(state, strand, side)).0) {
        return Err(Refusal::Address);
    }
    if !tte::word_insertable(word) {
        return Err(Refusal::Word);
    }
    if !state::slot_to_be_had(
        state,
        side,
        operands::entry_for(state, strand, side, flags, word),
    ) {
        return Err(Refusal::NoSlot);
    }
    Ok(())
}

// And 7, with which those on a context begin.
fn ask_context(strand: u8, side: u8, selector: u8) -> Result<Strand, Refusal>
    ensures { result ≡ result_and (ask (asked_context strand side selector)) (Ok strand) }
{
    let (strand, side) = ask_side(strand, side)?;
    if !selector_fits(side, selector) {
        return Err(Refusal::Selector);
    }
    Ok(strand)
}

fn ask_demap_page(
    state: &State,
    strand: u8,
    side: u8,
    selector: u8,
    flags: u8,
    address: VirtualAddress,
) -> Result<(), Refusal>
    ensures { Either result (state_in state.now)
        (command.DemapPage strand side selector flags address) }
{
    let strand = ask_context(strand, side, selector)?;
    if 2 <= flags {
        return Err(Refusal::Operand);
    }
    if !mode_allows(state, strand, true) {
        return Err(Refusal::Permission);
    }
    if !pages::in_range(address.0) {
        return Err(Refusal::Address);
    }
    Ok(())
}

fn ask_demap_context(state: &State, strand: u8, side: u8, selector: u8) -> Result<(), Refusal>
    ensures { Either result (state_in state.now) (command.DemapContext strand side selector) }
{
    let strand = ask_context(strand, side, selector)?;
    if !mode_allows(state, strand, true) {
        return Err(Refusal::Permission);
    }
    Ok(())
}

// 5, 6 and 16, of what is open to guests, as pointers are, or of what is not.
fn ask_open(state: &State, strand: u8, side: u8, guest: bool) -> Result<(Strand, Side), Refusal>
    ensures { result ≡ result_and (ask (asked_open (state_in state.now).registers strand side guest))
        (Ok (strand, side)) }
{
    let (strand, side) = ask_side(strand, side)?;
    if !mode_allows(state, strand, guest) {
        return Err(Refusal::Permission);
    }
    Ok((strand, side))
}

fn ask_access(
    state: &State,
    strand: u8,
    kind: u8,
    selector: u8,
    size: u8,
    address: VirtualAddress,
) -> Result<(), Refusal>
    ensures { Either result (state_in state.now) (command.Access strand kind selector size address) }
{
    let strand = ask_strand(strand)?;
    if 5 <= kind {
        return Err(Refusal::Side);
    }
    if !selector_fits(operands::access_side(kind), selector) {
        return Err(Refusal::Selector);
    }
    if is_nucleus_fetch(state, strand, kind, selector) {
        return Err(Refusal::Selector);
    }
    if !size_fits(kind, size) {
        return Err(Refusal::Operand);
    }
    Ok(())
}

fn ask_read(state: &State, strand: u8, number: u8) -> Result<(), Refusal>
    ensures { Either result (state_in state.now) (command.Read strand number) }
{
    let strand = ask_strand(strand)?;
    if !registers::is_known(number) {
        return Err(Refusal::Register);
    }
    Ok(())
}

fn ask_rate(state: &State, strand: u8, side: u8) -> Result<(), Refusal>
    ensures { Either result (state_in state.now) (command.Rate strand side) }
{
    let (strand, side) = ask_open(state, strand, side, true)?;
    if state::lookups_kept(state, strand, side) == 0 {
        return Err(Refusal::NoLookup);
    }
    Ok(())
}

// It names no strand: the stream's mark says whether it is permitted.
fn ask_invalidate(state: &State, side: u8, hypervisor: bool) -> Result<(), Refusal>
    ensures { result ≡ verdict hypervisor (state_in state.now) (command.Invalidate side) }
{
    Side::new(side).ok_or(Refusal::Side)?;
    if !hypervisor {
        return Err(Refusal::Permission);
    }
    Ok(())
}

// The first question of a command that is answered "no", or that it passed. `hypervisor` is the stream's mark.
pub fn question(state: &State, command: Command, hypervisor: bool) -> Result<(), Refusal>
    ensures { result ≡ verdict hypervisor (state_in state.now) command }
{
    match command {
        Command::Write {
            strand,
            register,
            value,
        } => ask_write(state, strand, register, value),
        Command::Insert {
            strand,
            side,
            flags,
            word,
        } => ask_insert(state, strand, side, flags, word),
        Command::DemapPage {
            strand,
            side,
            selector,
            flags,
            address,
        } => ask_demap_page(state, strand, side, selector, flags, address),
        Command::DemapContext {
            strand,
            side,
            selector,
        } => ask_demap_context(state, strand, side, selector),
        Command::DemapAll { strand, side } => {
            ask_open(state, strand, side, false)?;
            Ok(())
        }
        Command::Invalidate { side } => ask_invalidate(state, side, hypervisor),
        Command::Access {
            strand,
            kind,
            selector,
            size,
            address,
        } => ask_access(state, strand, kind, selector, size, address),
        Command::Read { strand, register } => ask_read(state, strand, register),
        Command::Pointers { strand, side } => {
            ask_open(state, strand, side, true)?;
            Ok(())
        }
        Command::Rate { strand, side } => ask_rate(state, strand, side),
    }
}
