// One command on the state: its questions, then what it does and answers.
#![tactic(auto)]

ghost use Rattle.std.specs.Prelude.{◌≡◌, ◌+◌, ◌^◌, ◌<◌};
ghost use Rattle.machine.specs.Slots.{context_of};
ghost use Rattle.machine.specs.State.{state_in};
ghost use Rattle.state.specs.Calls.{SoundIn, Did};
ghost use Rattle.machine.specs.Step.{displaced_of, placed_answer, demap, act, step, insert_step};
ghost use Rattle.machine.specs.declared.Command.TheVariants as command;
ghost use Rattle.mmu.specs.Fits.{PlaceFits, Ready};

use machine::{
    Answer, Command, Displaced, NoSlot, Refusal, Removal, Side, Slot, Strand, VirtualAddress,
};
use state::State;
use tsb::PageSize;

// A displaced entry as an answer names it.
fn displaced_entry(x: Slot) -> Displaced
    requires { x.page + context_of x < 2 ^ 64 }
    ensures { result ≡ displaced_of x }
{
    Displaced {
        partition: tlb::partition_of(x),
        real: tlb::is_real(x),
        place: x.page + tlb::context_of(x),
        word: x.word,
    }
}

// An insertion's answer.
fn placed_to_answer(placed: Result<Option<Slot>, NoSlot>) -> Answer
    requires { PlaceFits placed }
    ensures { result ≡ placed_answer placed }
{
    match placed {
        Ok(None) => Answer::Done(0),
        Ok(Some(x)) => Answer::Displaced(displaced_entry(x)),
        Err(NoSlot) => Answer::Refused(Refusal::NoSlot),
    }
}

// An insertion that passed its questions.
fn act_insert(state: &mut State, strand: Strand, side: Side, flags: u8, word: u64) -> Answer
    requires { SoundIn state.old }
    ensures { Did state.new result
        (act (state_in state.old) (command.Insert strand side flags word)) }
{
    let new = operands::entry_for(state, strand, side, flags, word);
    let placed = state::insert_side(state, side, new);
    placed_to_answer(placed)
}

// An insertion from number 11 on, for a served miss.
pub fn insert(state: &mut State, strand: Strand, side: Side, flags: u8, word: u64) -> Answer
    requires { SoundIn state.old }
    ensures { Did state.new result
        (insert_step (state_in state.old) strand side flags word) }
{
    if !pages::in_range(operands::tag_address(operands::tag_of(state, strand, side)).0) {
        return Answer::Refused(Refusal::Address);
    }
    if !tte::word_insertable(word) {
        return Answer::Refused(Refusal::Word);
    }
    // 13 is what the insertion itself comes to: without a slot it changes nothing
    act_insert(state, strand, side, flags, word)
}

// A demap answers how many entries it removed.
fn act_demap(state: &mut State, side: Side, which: Removal) -> Answer
    ensures { Did state.new result (demap (state_in state.old) side which) }
{
    Answer::Done(state::remove_side(state, side, which))
}

// What each command does that passed its questions.
fn act_write(state: &mut State, strand: Strand, number: u8, value: u64) -> Answer
    requires { Ready state.old (command.Write strand number value) }
    ensures { Did state.new result
        (act (state_in state.old) (command.Write strand number value)) }
{
    state::write_register(state, strand, number, value);
    Answer::Done(0)
}

fn act_demap_page(
    state: &mut State,
    strand: Strand,
    side: Side,
    selector: u8,
    flags: u8,
    address: VirtualAddress,
) -> Answer
    requires { Ready state.old (command.DemapPage strand side selector flags address) }
    ensures { Did state.new result
        (act (state_in state.old) (command.DemapPage strand side selector flags address)) }
{
    let partition = state::read_register(state, strand, machine::PARTITION);
    let context = operands::selected_context(state, strand, selector);
    let key = operands::key_for(operands::flag_real(flags), partition, context, address);
    act_demap(state, side, Removal::Page(key))
}

fn act_demap_context(state: &mut State, strand: Strand, side: Side, selector: u8) -> Answer
    requires { Ready state.old (command.DemapContext strand side selector) }
    ensures { Did state.new result
        (act (state_in state.old) (command.DemapContext strand side selector)) }
{
    let partition = state::read_register(state, strand, machine::PARTITION);
    let context = operands::selected_context(state, strand, selector);
    act_demap(state, side, Removal::Context { partition, context })
}

fn act_demap_all(state: &mut State, strand: Strand, side: Side) -> Answer
    requires { Ready state.old (command.DemapAll strand side) }
    ensures { Did state.new result (act (state_in state.old) (command.DemapAll strand side)) }
{
    let partition = state::read_register(state, strand, machine::PARTITION);
    act_demap(state, side, Removal::Unlocked { partition })
}

// No count is answered.
fn act_invalidate(state: &mut State, side: Side) -> Answer
    requires { Ready state.old (command.Invalidate side) }
    ensures { Did state.new result (act (state_in state.old) (command.Invalidate side)) }
{
    state::remove_side(state, side, Removal::Everything);
    Answer::Done(0)
}

fn act_access(
    state: &mut State,
    hints: &mut [u8; 256],
    strand: Strand,
    kind: u8,
    selector: u8,
    size: u8,
    address: VirtualAddress,
) -> Answer
    requires { Ready state.old (command.Access strand kind selector size address) }
    ensures { Did state.new result
        (act (state_in state.old) (command.Access strand kind selector size address)) }
{
    let a = access::access_of(state, strand, kind, selector, size, address);
    access::access_to(state, hints, a)
}

fn act_read(state: &State, strand: Strand, number: u8) -> Answer
    requires { Ready state.now (command.Read strand number) }
    ensures { result ≡ (act (state_in state.now) (command.Read strand number)).answer }
{
    Answer::Read(state::read_register(state, strand, number), 0)
}

fn act_pointers(state: &State, strand: Strand, side: Side) -> Answer
    requires { Ready state.now (command.Pointers strand side) }
    ensures { result ≡ (act (state_in state.now) (command.Pointers strand side)).answer }
{
    Answer::Read(
        tsb::pointer_of(state, strand, side, PageSize::at(0)),
        tsb::pointer_of(state, strand, side, PageSize::at(1)),
    )
}

fn act_rate(state: &State, strand: Strand, side: Side) -> Answer
    requires { Ready state.now (command.Rate strand side) }
    ensures { result ≡ (act (state_in state.now) (command.Rate strand side)).answer }
{
    Answer::Read(state::miss_rate(state, strand, side), 0)
}

fn act_command(state: &mut State, hints: &mut [u8; 256], command: Command) -> Answer
    requires { Ready state.old command }
    ensures { Did state.new result (act (state_in state.old) command) }
{
    match command {
        Command::Write {
            strand,
            register,
            value,
        } => act_write(state, Strand::at(strand), register, value),
        Command::Insert {
            strand,
            side,
            flags,
            word,
        } => act_insert(state, Strand::at(strand), Side::at(side), flags, word),
        Command::DemapPage {
            strand,
            side,
            selector,
            flags,
            address,
        } => act_demap_page(
            state,
            Strand::at(strand),
            Side::at(side),
            selector,
            flags,
            address,
        ),
        Command::DemapContext {
            strand,
            side,
            selector,
        } => act_demap_context(state, Strand::at(strand), Side::at(side), selector),
        Command::DemapAll { strand, side } => act_demap_all(
            state,
            Strand::at(strand),
            Side::at(side),
        ),
        Command::Invalidate { side } => act_invalidate(state, Side::at(side)),
        Command::Access {
            strand,
            kind,
            selector,
            size,
            address,
        } => act_access(
            state,
            hints,
            Strand::at(strand),
            kind,
            selector,
            size,
            address,
        ),
        Command::Read { strand, register } => act_read(state, Strand::at(strand), register),
        Command::Pointers { strand, side } => act_pointers(
            state,
            Strand::at(strand),
            Side::at(side),
        ),
        Command::Rate { strand, side } => act_rate(state, Strand::at(strand), Side::at(side)),
    }
}

// One command: refused by the first question that it fails, or done. `hypervisor` is the stream's mark.
pub fn execute(
    state: &mut State,
    hints: &mut [u8; 256],
    command: Command,
    hypervisor: bool,
) -> Answer
    requires { SoundIn state.old }
    ensures { Did state.new result (step hypervisor (state_in state.old) command) }
{
    if let Err(refusal) = questions::question(state, command, hypervisor) {
        return Answer::Refused(refusal);
    }
    act_command(state, hints, command)
}
