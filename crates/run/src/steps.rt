// The machine over flat words: one step of it, and its start.

mod literals;

ghost use Rattle.std.specs.Prelude.{◌≡◌, List, ℕ};
ghost use Rattle.machine.specs.Runs.{is_answer, goes_deeper};
ghost use Rattle.run.specs.Meanings.{pile_in};
ghost use Rattle.run.specs.Steps.{Running, meaning, Steppable, Stepped, Startable, Started};

use crate::alternatives::PileHeight;
use crate::alternatives::laying::lay;
use crate::alternatives::records::{Spot, top_at};
use bindings::store::undo;
use literals::work;
use load::records::Compiled;
use run_layout::END_KIND;
use syntax::{CALL_KIND, LONGEST_PATH};
use words::tables::word_at;

/// Takes one step of the machine: the trail is undone to the top's mark, then the top alternative is worked on. Returned are the new heights.
pub fn step(
    program: Compiled,
    state: &mut [u32],
    scratch: &mut [u32],
    pile: PileHeight,
) -> PileHeight
    requires { Steppable program.nodes.now program.code.now state.old scratch.old pile.height pile.trail }
    ensures { (w : Steppable program.entry.nodes.now program.entry.code.now state.old scratch.old pile.height pile.trail)
        → Stepped (meaning w.running) state.old state.new scratch.old scratch.new pile.height result }
{
    let j = pile.height - 1;
    let s = top_at(state, j);
    undo(state, s.mark, pile.trail);
    work(program, state, scratch, pile.height)
}

/// Lays the goal alone on the pile, with path 0: the state that a run begins at.
pub fn start(code: &[u32], state: &mut [u32])
    requires { (nodes : List ℕ) × Startable nodes code.now state.old }
    ensures { (nodes : List ℕ) (w : Startable nodes code.now state.old) → Started w state.new }
{
    let first = word_at(code, 1);
    let goal = Spot {
        copy: 0,
        literal: first,
    };
    lay(code, state, 0, goal, 0, 0);
}

/// Whether the next step would be an answer: the top alternative has no literal left.
pub fn is_answer(code: &[u32], state: &[u32], pile: PileHeight) -> bool
    requires { (nodes : List ℕ) × Running nodes code.now state.now pile.height pile.trail }
    ensures { (nodes : List ℕ) (w : Running nodes code.now state.now pile.height pile.trail)
        → result ≡ is_answer (pile_in (meaning w) state.now pile.height) }
{
    if pile.height == 0 {
        return false;
    }
    let j = pile.height - 1;
    let s = top_at(state, j);
    word_at(code, s.literal) == END_KIND
}

/// Whether the next step would try a clause at path 255, where a run ends by `deep`.
pub fn goes_deeper(code: &[u32], state: &[u32], pile: PileHeight) -> bool
    requires { (nodes : List ℕ) × Running nodes code.now state.now pile.height pile.trail }
    ensures { (nodes : List ℕ) (w : Running nodes code.now state.now pile.height pile.trail)
        → result ≡ goes_deeper w.sh (pile_in (meaning w) state.now pile.height) }
{
    if pile.height == 0 {
        return false;
    }
    let j = pile.height - 1;
    let s = top_at(state, j);
    // One test for each way out: the proof goes by the same cases.
    if word_at(code, s.literal) != CALL_KIND {
        return false;
    }
    if s.next == 0 {
        return false;
    }
    LONGEST_PATH <= s.path
}
