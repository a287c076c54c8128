// Before a step of a run: what comes next, and an answer told, its line written and then the step taken.

ghost use Rattle.std.specs.Prelude.{◌≡◌, List, ℕ, ◌-◌, ◌≤◌, length};
ghost use Rattle.syntax.specs.Terms.{Goal};
ghost use Rattle.machine.specs.Answers.{line};
ghost use Rattle.run_layout.specs.Nodes.{Symbol};
ghost use Rattle.run_layout.specs.State.{bindings};
ghost use Rattle.run_layout.specs.Rooms.{Clean};
ghost use Rattle.answers.specs.Telling.{names_of};
ghost use Rattle.answers.specs.Fitting.{Answerable, SomeAnswerable, Tellable, Fitted};
ghost use Rattle.run.specs.Meanings.{pile_in};
ghost use Rattle.run.specs.Steps.{Running, meaning};
ghost use Rattle.run.specs.Telling.{before_step, solution_of, Rewindable, Rewound, Answering, Answered};

use crate::alternatives::PileHeight;
use crate::alternatives::records::top_at;
use crate::settings::ended;
use crate::steps::{goes_deeper, is_answer, step};
use answers::Solution;
use answers::lines::put_answer;
use bindings::store::undo;
use load::records::Compiled;
use syntax::RunEnd;

/// What a run reads and never writes: the two texts, the packed names of the goal's variables (`names`, `count` of them), and the tables of a loaded program.
/// State, scratch words and text, which a run writes, are parameters of their own.
#[derive(Clone, Copy)]
pub struct LoadedProgram<'a> {
    pub sheet: &'a [u8],
    pub goal: &'a [u8],
    pub names: &'a [u32],
    pub count: usize,
    pub nodes: &'a [u32],
    pub code: &'a [u32],
    pub symbols: &'a [u32],
}

/// What comes before the next step: the run's end, an answer's line, or nothing, and then the step is taken.
#[derive(Clone, Copy)]
pub enum Next {
    End(RunEnd),
    Answer,
    Step,
}

/// Where a run stands after an answer: the position in the text past its line, None where the line does not fit and no step was taken; the pile's height and
/// the trail's length.
#[derive(Clone, Copy)]
pub struct AnswerTold {
    pub at: Option<usize>,
    pub height: usize,
    pub trail: usize,
}

/// What comes before the next step; `left` is what is left of the allowance. The ends are looked for in their order, `done` before `wanted` (REQUESTS (vii)).
/// Whether an answer's line fits is known once it is spelt, in `answer`.
pub fn next_of(
    code: &[u32],
    state: &[u32],
    pile: PileHeight,
    wanted: usize,
    answers: usize,
    left: usize,
) -> Next
    requires { (nodes : List ℕ) × Running nodes code.now state.now pile.height pile.trail }
    ensures { (nodes : List ℕ) (w : Running nodes code.now state.now pile.height pile.trail)
        → result ≡ before_step wanted answers left w.sh (pile_in (meaning w) state.now pile.height) }
{
    if let Some(kind) = ended(pile.height, wanted, answers, left) {
        return Next::End(kind);
    }
    if is_answer(code, state, pile) {
        return Next::Answer;
    }
    if goes_deeper(code, state, pile) {
        return Next::End(RunEnd::Deep);
    }
    Next::Step
}

/// Undoes the trail to the mark of the top and returns the length it then has, the mark.
pub fn rewind(state: &mut [u32], pile: PileHeight) -> usize
    requires { Rewindable state.old pile.height pile.trail }
    ensures { Rewound state.old state.new pile.height pile.trail result }
{
    let s = top_at(state, pile.height - 1);
    undo(state, s.mark, pile.trail);
    s.mark
}

/// Writes the line of an answer from `at` on and returns the position past it; None where it does not fit. The marks of the search for a cycle number its
/// variables meanwhile.
pub fn tell(
    loaded: LoadedProgram,
    state: &[u32],
    scratch: &mut [u32],
    text: &mut [u8],
    at: usize,
) -> Option<usize>
    requires some_answerable { SomeAnswerable (solution_of loaded state) }
    requires at_in_bounds { (at ≤ length text.old) × Tellable scratch.old (length text.old - at) }
    requires clean { Clean scratch.old }
    ensures fitted { (ss : List Symbol) (n : ℕ) (g : Goal) → Answerable ss n (solution_of loaded.entry state.entry)
        → g.names ≡ names_of (solution_of loaded.entry state.entry)
        → Fitted (line g (bindings ss loaded.entry.nodes.now state.now n)) text.old at text.new result }
    ensures clean { Clean scratch.new }
{
    let solution = Solution {
        nodes: loaded.nodes,
        state,
        symbols: loaded.symbols,
        sheet: loaded.sheet,
        goal: loaded.goal,
        names: loaded.names,
        count: loaded.count,
    };
    put_answer(solution, scratch, text, at)
}

/// Tells an answer: writes its line from `at` on, and then takes the step. Where the line does not fit, the step is not taken.
pub fn answer(
    loaded: LoadedProgram,
    state: &mut [u32],
    scratch: &mut [u32],
    text: &mut [u8],
    pile: PileHeight,
    at: usize,
) -> AnswerTold
    requires { Answering loaded state.old scratch.old text.old pile.height pile.trail at }
    ensures { (w : Answering loaded.entry state.old scratch.old text.old pile.height pile.trail at)
        → Answered w state.new scratch.new text.new result }
{
    let trail = rewind(state, pile);
    let Some(past) = tell(loaded, state, scratch, text, at) else {
        return AnswerTold {
            at: None,
            height: pile.height,
            trail,
        };
    };
    let program = Compiled {
        nodes: loaded.nodes,
        code: loaded.code,
    };
    let here = PileHeight {
        height: pile.height,
        trail,
    };
    let p = step(program, state, scratch, here);
    AnswerTold {
        at: Some(past),
        height: p.height,
        trail: p.trail,
    }
}
