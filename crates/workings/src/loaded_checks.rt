// Workings checked for a sheet and a goal as they were read into their tables: loaded, linked and replayed, and the line of the answer told. The tables of a
// replay are its own, as large as those of a run.

ghost use Rattle.std.specs.Prelude.{◌≡◌, ℕ, List, length};
ghost use Rattle.syntax.specs.Terms.{Goal};
ghost use Rattle.machine.specs.Answers.{line};
ghost use Rattle.run_layout.specs.Nodes.{Symbol};
ghost use Rattle.run_layout.specs.State.{bindings};
ghost use Rattle.run_layout.specs.Rooms.{Clean};
ghost use Rattle.answers.specs.Telling.{names_of};
ghost use Rattle.answers.specs.Fitting.{Answerable, SomeAnswerable, Tellable};
ghost use Rattle.run.specs.Telling.{solution_of, LentScratch};
ghost use Rattle.run.specs.Programs.{RoomFor, Programmed};
ghost use Rattle.derivations.specs.Workings.{records_of, replay, begun, fitting, over_replay};
ghost use Rattle.workings.specs.Checks.{OutcomeTold, Checkable, LinkedOver};

use crate::replays::replay;
use bindings::store::undo;
use load::node_words::{ReadGoal, ReadSheet};
use load::records::Compiled;
use run::loaded_runs::load_program;
use run::telling::{LoadedProgram, tell};
use run_layout::rooms::{clear, cleared};
use run_layout::{
    CODE_WORDS, NARROW_WORDS, NODES_WORDS, SHORT_SHEET, SHORT_TEXT, STATE_WORDS, WIDE_WORDS,
};
use syntax::{Fault, Refusal, Text};

// The line of the answer that stands in the state, with how many bytes it has; or that it is too long.
fn tell_line(
    loaded: LoadedProgram,
    state: &[u32],
    scratch: &mut [u32],
    text: &mut [u8],
) -> Result<usize, Fault>
    requires some_answerable { SomeAnswerable (solution_of loaded state) }
    requires tellable { Tellable scratch.old (length text.old) }
    requires clean { Clean scratch.old }
    ensures told { (ss : List Symbol) (n : ℕ) (g : Goal) → Answerable ss n (solution_of loaded.entry state.entry)
        → g.names ≡ names_of (solution_of loaded.entry state.entry)
        → OutcomeTold (fitting (length text.old) (line g (bindings ss loaded.entry.nodes.now state.now n))) text.old text.new result }
    ensures clean { Clean scratch.new }
{
    match tell(loaded, state, scratch, text, 0) {
        Some(bytes) => Ok(bytes),
        None => Err(Fault {
            text: Text::Neither,
            refusal: Refusal::LineTooLong,
        }),
    }
}

// The goal replayed, and its answer told. All that the replay bound is unbound then; where there is no answer no trail is handed up, and the cells are cleared.
fn replay_and_tell(
    loaded: LoadedProgram,
    clauses: usize,
    workings: &[u8],
    state: &mut [u32],
    scratch: &mut [u32],
    text: &mut [u8],
) -> Result<usize, Fault>
    requires { Checkable loaded clauses state.old scratch.old text.old }
    ensures told { (w : Checkable loaded.entry clauses state.old scratch.old text.old) → OutcomeTold
        (over_replay w.runnable.g (length text.old) (replay w.runnable.sh (records_of workings.now) (begun w.runnable.g))) text.old text.new result }
    ensures leaves { Clean state.new × Clean scratch.new }
{
    let program = Compiled {
        nodes: loaded.nodes,
        code: loaded.code,
    };
    match replay(program, clauses, workings, state, scratch) {
        Ok(pile) => {
            let line = tell_line(loaded, state, scratch, text);
            undo(state, 0, pile.trail);
            line
        }
        Err(bytes) => {
            clear(state);
            clear(scratch);
            Err(Fault {
                text: Text::Workings,
                refusal: Refusal::BadWorkings(bytes),
            })
        }
    }
}

// The same with a state of its own.
fn with_state(
    loaded: LoadedProgram,
    clauses: usize,
    workings: &[u8],
    scratch: &mut [u32],
    text: &mut [u8],
) -> Result<usize, Fault>
    requires { LinkedOver loaded clauses × LentScratch scratch.old (length text.old) }
    ensures { (w : LinkedOver loaded.entry clauses) → OutcomeTold
        (over_replay w.linked.g (length text.old) (replay w.linked.sh (records_of workings.now) (begun w.linked.g))) text.old text.new result }
{
    let mut state: [u32; STATE_WORDS] = cleared();
    replay_and_tell(loaded, clauses, workings, &mut state, scratch, text)
}

// The same with so many words for unification and for the open brackets of an answer. Not inlined, so that a check needs native stack for one room alone.
#[inline(never)]
fn with_room<const WORDS: usize>(
    loaded: LoadedProgram,
    clauses: usize,
    workings: &[u8],
    text: &mut [u8],
) -> Result<usize, Fault>
    requires { LinkedOver loaded clauses × RoomFor WORDS (length text.old) }
    ensures { (w : LinkedOver loaded.entry clauses) → OutcomeTold
        (over_replay w.linked.g (length text.old) (replay w.linked.sh (records_of workings.now) (begun w.linked.g))) text.old text.new result }
{
    let mut scratch: [u32; WORDS] = cleared();
    with_state(loaded, clauses, workings, &mut scratch, text)
}

// The same with the room that is needed: less under a short sheet with a short text.
fn choose_room(
    loaded: LoadedProgram,
    clauses: usize,
    workings: &[u8],
    text: &mut [u8],
) -> Result<usize, Fault>
    requires { LinkedOver loaded clauses }
    ensures { (w : LinkedOver loaded.entry clauses) → OutcomeTold
        (over_replay w.linked.g (length text.old) (replay w.linked.sh (records_of workings.now) (begun w.linked.g))) text.old text.new result }
{
    if SHORT_SHEET < loaded.sheet.len() || SHORT_TEXT < text.len() {
        return with_room::<WIDE_WORDS>(loaded, clauses, workings, text);
    }
    with_room::<NARROW_WORDS>(loaded, clauses, workings, text)
}

/// Workings of a goal that was read checked over a sheet that was read: the length of the answer's line, which is written; or the fault, 17 or 18, and nothing
/// is written. The names are the words of the goal's variables, so many.
pub fn load_and_check(
    sheet: ReadSheet<'_>,
    goal: ReadGoal<'_>,
    names: &[u32],
    count: usize,
    workings: &[u8],
    text: &mut [u8],
) -> Result<usize, Fault>
    requires { Programmed sheet.text.now sheet.table.now sheet.clauses goal.text.now goal.table.now goal.literals names.now count }
    ensures { (w : Programmed sheet.entry.text.now sheet.entry.table.now sheet.entry.clauses goal.entry.text.now goal.entry.table.now goal.entry.literals
        names.now count) → OutcomeTold
        (over_replay w.tables.g (length text.old) (replay w.tables.sh (records_of workings.now) (begun w.tables.g))) text.old text.new result }
{
    let mut nodes: [u32; NODES_WORDS] = cleared();
    let mut symbols: [u32; NODES_WORDS] = cleared();
    let mut code: [u32; CODE_WORDS] = cleared();
    load_program(sheet, goal, &mut nodes, &mut symbols, &mut code);
    let loaded = LoadedProgram {
        sheet: sheet.text,
        goal: goal.text,
        names,
        count,
        nodes: &nodes,
        code: &code,
        symbols: &symbols,
    };
    choose_room(loaded, sheet.clauses, workings, text)
}
