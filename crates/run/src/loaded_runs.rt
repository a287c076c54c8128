// A sheet and a goal as they were read into their tables: loaded, linked and run. The tables of a run stand on the native stack.

ghost use Rattle.std.specs.Prelude.{length};
ghost use Rattle.run.specs.Running.{RunWritten};
ghost use Rattle.run.specs.Telling.{LentScratch};
ghost use Rattle.run.specs.Programs.{RoomFor, LimitedTables, Programmed, LinkedTables, ProgramLinked};
ghost use Rattle.run_layout.specs.Rooms.{ProgramRoom};

use crate::telling::LoadedProgram;
use crate::whole_runs::run;
use load::node_words::{ReadGoal, ReadSheet};
use load::nodes::load_nodes;
use load::programs::link;
use output::results::Written;
use run_layout::rooms::cleared;
use run_layout::{
    CODE_WORDS, NARROW_WORDS, NODES_WORDS, SHORT_SHEET, SHORT_TEXT, STATE_WORDS, WIDE_WORDS,
};
use syntax::MOST_STEPS;

// Runs a loaded and linked program, with scratch words lent for unification and for the open brackets of an answer.
fn with_state(
    loaded: LoadedProgram,
    scratch: &mut [u32],
    text: &mut [u8],
    allowance: usize,
    wanted: usize,
) -> Written
    requires { (ProgramLinked loaded) × LentScratch scratch.old (length text.old) }
    ensures { (w : ProgramLinked loaded.entry) → RunWritten w.sh w.g allowance wanted text.old text.new result }
{
    let mut state: [u32; STATE_WORDS] = cleared();
    run(loaded, &mut state, scratch, text, allowance, wanted)
}

// The run with `WORDS` words for unification and for the open brackets of an answer. `again` is always 0, so the function never calls itself. That it could
// keeps a compiler from putting it into its caller, where a run would need native stack for the rooms of both sizes at once.
fn with_room<const WORDS: usize>(
    loaded: LoadedProgram,
    text: &mut [u8],
    allowance: usize,
    wanted: usize,
    again: usize,
) -> Written
    requires { (ProgramLinked loaded) × RoomFor WORDS (length text.old) }
    ensures { (w : ProgramLinked loaded.entry) → RunWritten w.sh w.g allowance wanted text.old text.new result }
{
    if again != 0 {
        return with_room::<WORDS>(loaded, text, allowance, wanted, again - 1);
    }
    let mut scratch: [u32; WORDS] = cleared();
    with_state(loaded, &mut scratch, text, allowance, wanted)
}

// Runs a loaded and linked program. Only the room that it needs is cleared: less where neither sheet nor text is longer than `SHORT_SHEET` and `SHORT_TEXT`.
fn choose_room(loaded: LoadedProgram, text: &mut [u8], allowance: usize, wanted: usize) -> Written
    requires { ProgramLinked loaded }
    ensures { (w : ProgramLinked loaded.entry) → RunWritten w.sh w.g allowance wanted text.old text.new result }
{
    // This is 0, since no run has a larger allowance.
    let again = allowance / (MOST_STEPS + 1);
    if SHORT_SHEET < loaded.sheet.len() || SHORT_TEXT < text.len() {
        return with_room::<WIDE_WORDS>(loaded, text, allowance, wanted, again);
    }
    with_room::<NARROW_WORDS>(loaded, text, allowance, wanted, again)
}

/// Loads and links a sheet and a goal that were read, into tables of any contents.
pub fn load_program(
    sheet: ReadSheet<'_>,
    goal: ReadGoal<'_>,
    nodes: &mut [u32],
    symbols: &mut [u32],
    code: &mut [u32],
)
    requires tables { LimitedTables sheet.text.now sheet.table.now sheet.clauses goal.text.now goal.table.now goal.literals }
    requires room { ProgramRoom nodes.old symbols.old code.old }
    ensures { (w : LimitedTables sheet.entry.text.now sheet.entry.table.now sheet.entry.clauses goal.entry.text.now goal.entry.table.now
        goal.entry.literals) → LinkedTables sheet.entry.text.now goal.entry.text.now w.tables.sh w.tables.g nodes.new symbols.new code.new }
{
    load_nodes(sheet, goal, nodes, symbols);
    link(sheet, goal, nodes, code);
}

/// Runs a goal that was read over a sheet that was read: at most `allowance` steps, until `wanted` answers are written, their lines from the start of `text`
/// on. `names` holds the packed names of the goal's variables, `count` of them.
pub fn load_and_run(
    sheet: ReadSheet<'_>,
    goal: ReadGoal<'_>,
    names: &[u32],
    count: usize,
    text: &mut [u8],
    allowance: usize,
    wanted: usize,
) -> Written
    requires { Programmed sheet.text.now sheet.table.now sheet.clauses goal.text.now goal.table.now goal.literals names.now count }
    ensures { (w : Programmed sheet.entry.text.now sheet.entry.table.now sheet.entry.clauses goal.entry.text.now goal.entry.table.now goal.entry.literals
        names.now count) → RunWritten w.tables.sh w.tables.g allowance wanted text.old text.new result }
{
    let mut nodes: [u32; NODES_WORDS] = cleared();
    let mut symbols: [u32; NODES_WORDS] = cleared();
    let mut code: [u32; CODE_WORDS] = cleared();
    load_program(sheet, goal, &mut nodes, &mut symbols, &mut code);
    let loaded = LoadedProgram {
        sheet: sheet.text,
        goal: goal.text,
        names,
        count,
        nodes: &nodes,
        code: &code,
        symbols: &symbols,
    };
    choose_room(loaded, text, allowance, wanted)
}
