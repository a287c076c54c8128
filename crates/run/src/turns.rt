// A turn of a run over loaded words: the step repeated until RULES ends it or the turn's steps are used up.

ghost use Rattle.std.specs.Prelude.{◌≡◌, ◌+◌, ◌^◌, ◌<◌, length};
ghost use Rattle.machine.specs.Runs.{run_from};
ghost use Rattle.run.specs.Telling.{meaning_of};
ghost use Rattle.run.specs.Turns.{Underway, Turned};

use crate::alternatives::PileHeight;
use crate::steps::step;
use crate::telling::{LoadedProgram, Next, answer, next_of};
use load::records::Compiled;
use syntax::RunEnd;

/// What a run carries from turn to turn: the height of the pile, the length of the trail, the answers, the steps, the position in the text, and how it ended.
/// While it may go on, `kind` is `Steps`, as of a turn whose steps are used up; the next turn does not read it.
#[derive(Clone, Copy)]
pub struct Carried {
    pub height: usize,
    pub trail: usize,
    pub answers: usize,
    pub steps: usize,
    pub at: usize,
    pub kind: RunEnd,
}

// What a run carries at its end.
fn at_end(pile: PileHeight, answers: usize, steps: usize, at: usize, kind: RunEnd) -> Carried
    ensures { result ≡ record { height = pile.height; trail = pile.trail; answers = answers; steps = steps; at = at; kind = kind } }
{
    Carried {
        height: pile.height,
        trail: pile.trail,
        answers,
        steps,
        at,
        kind,
    }
}

/// Takes a run at most `k` steps further: the step is repeated until an end applies or the `k` steps are used up. `wanted` counts the answers of the whole run.
pub fn turn(
    loaded: LoadedProgram,
    state: &mut [u32],
    scratch: &mut [u32],
    text: &mut [u8],
    carried: Carried,
    k: usize,
    wanted: usize,
) -> Carried
    requires underway { Underway loaded state.old scratch.old text.old carried }
    requires k_bound { carried.steps + k < 2 ^ 64 }
    ensures { (w : Underway loaded.entry state.old scratch.old text.old carried)
        → Turned (meaning_of w.ss w.sh w.g loaded.entry) state.new scratch.new w.old text.new
        (run_from w.sh w.g wanted (length w.old) k w.progress) result }
{
    let allowance = carried.steps + k;
    let mut pile = PileHeight {
        height: carried.height,
        trail: carried.trail,
    };
    let mut answers = carried.answers;
    let mut steps = carried.steps;
    let mut at = carried.at;
    // How many steps there are is known only when an end applies.
    loop {
        let left = allowance - steps;
        match next_of(loaded.code, state, pile, wanted, answers, left) {
            Next::End(kind) => return at_end(pile, answers, steps, at, kind),
            Next::Answer => {
                let t = answer(loaded, state, scratch, text, pile, at);
                pile = PileHeight {
                    height: t.height,
                    trail: t.trail,
                };
                let Some(past) = t.at else {
                    return at_end(pile, answers, steps, at, RunEnd::Full);
                };
                at = past;
                answers += 1;
                steps += 1;
            }
            Next::Step => {
                let program = Compiled {
                    nodes: loaded.nodes,
                    code: loaded.code,
                };
                pile = step(program, state, scratch, pile);
                steps += 1;
            }
        }
    }
}
