// A run: document 01, "The stream". Number 1 once and first, then command after command from the caller's bytes.
#![tactic(auto)]

ghost use Rattle.std.specs.Prelude.{◌≡◌};
ghost use Rattle.machine.specs.State.{counts};
ghost use Rattle.machine.specs.Stream.{outcome, run_of};

use machine::{Report, Stop};

// An answer of 24 bytes into the output for every command taken. Every word of the state and every byte of the output is what `run_of`
// says, whatever the state, the input and the room. `hypervisor` is the stream's mark.
pub fn run(state: &mut [u64], input: &[u8], output: &mut [u8], hypervisor: bool) -> Report
    ensures { outcome state.new output.new result
        ≡ run_of hypervisor counts state.old input.now output.old }
{
    let Some(words) = state::sound_mut(state) else {
        return Report {
            answered: 0,
            taken: 0,
            stop: numbers::stop_number(Stop::Unsound),
        };
    };
    // the slots of earlier hits; an answer does not depend on what it holds
    let mut hints = [0; 256];
    let mut at = 0;
    let mut answered = 0;
    // commands differ in width, so the loop goes by the position
    while at < input.len() {
        // The room is asked for before the decoding: the decoder's arms then lead straight into the unit's.
        if output.len() / machine::ANSWER_BYTES <= answered {
            return Report {
                answered,
                taken: at,
                stop: numbers::stop_number(wire::stop_without_room(input, at)),
            };
        }
        let decoded = wire::command_at(input, at);
        let Ok((command, width)) = decoded else {
            return Report {
                answered,
                taken: at,
                stop: wire::stop_number(decoded),
            };
        };
        let answer = mmu::execute(words, &mut hints, command, hypervisor);
        wire::put_answer(output, answered * machine::ANSWER_BYTES, answer);
        at += width;
        answered += 1;
    }
    Report {
        answered,
        taken: at,
        stop: 0,
    }
}
