// A run over loaded words, in one turn: its report, and the lines of its answers. It leaves the words as clean as it took them.

ghost use Rattle.std.specs.Prelude.{length};
ghost use Rattle.machine.specs.Runs.{run};
ghost use Rattle.run.specs.Telling.{meaning_of};
ghost use Rattle.run_layout.specs.Rooms.{Clean};
ghost use Rattle.run.specs.Turns.{Turned};
ghost use Rattle.run.specs.Running.{Runnable, RunWritten};

use crate::steps::start;
use crate::telling::LoadedProgram;
use crate::turns::{Carried, turn};
use bindings::store::undo;
use output::results::Written;
use syntax::{Report, RunEnd};

/// Runs a loaded program in one turn, from the goal alone on the pile: what the run carries at its end, where the words mean the pile that is left.
pub fn run_to_end(
    loaded: LoadedProgram,
    state: &mut [u32],
    scratch: &mut [u32],
    text: &mut [u8],
    allowance: usize,
    wanted: usize,
) -> Carried
    requires { Runnable loaded state.old scratch.old text.old }
    ensures { (w : Runnable loaded.entry state.old scratch.old text.old)
        → Turned (meaning_of w.ss w.sh w.g loaded.entry) state.new scratch.new text.old text.new
        (run w.sh w.g allowance wanted (length text.old)) result }
{
    start(loaded.code, state);
    let first = Carried {
        height: 1,
        trail: 0,
        answers: 0,
        steps: 0,
        at: 0,
        kind: RunEnd::Steps,
    };
    turn(loaded, state, scratch, text, first, allowance, wanted)
}

/// Runs a loaded program: returned are its report and how many bytes its lines take at the start of the text. All that it bound is unbound then, so that the
/// words serve for another run.
pub fn run(
    loaded: LoadedProgram,
    state: &mut [u32],
    scratch: &mut [u32],
    text: &mut [u8],
    allowance: usize,
    wanted: usize,
) -> Written
    requires { Runnable loaded state.old scratch.old text.old }
    ensures gives { (w : Runnable loaded.entry state.old scratch.old text.old)
        → RunWritten w.sh w.g allowance wanted text.old text.new result }
    ensures leaves { Clean state.new × Clean scratch.new }
{
    let last = run_to_end(loaded, state, scratch, text, allowance, wanted);
    undo(state, 0, last.trail);
    let kind = last.kind;
    let report = Report {
        kind,
        answers: last.answers,
        steps: last.steps,
    };
    Written {
        report,
        bytes: last.at,
    }
}
