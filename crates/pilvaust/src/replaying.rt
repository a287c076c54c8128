// Workings of another engine checked for a goal over a sheet that was checked and stands in its tables (REQUESTS (xi)).

ghost use Rattle.std.specs.Prelude.{◌≤◌, length};
ghost use Rattle.syntax.specs.Limits.{variables};
ghost use Rattle.syntax.specs.Spans.{met};
ghost use Rattle.run.specs.Programs.{Programmed};
ghost use Rattle.mode_rules.specs.Checking.{checked_goal};
ghost use Rattle.derivations.specs.Workings.{records_of, replay, begun, over_replay, over_goal};
ghost use Rattle.workings.specs.Checks.{OutcomeTold};
ghost use Rattle.pilvaust.specs.Goals.{ProgramReady};

use crate::reading::read_goal_text;
use load::node_words::{ReadGoal, ReadSheet};
use marks::declarations::{Declarations, ReadText};
use syntax::{Fault, GOAL_WORDS, Text, VARIABLES};
use workings::loaded_checks::load_and_check;

// The workings of a goal that was read into its table, with the words of its variables last, checked over a sheet that was read.
fn check_goal_workings(
    sheet: ReadSheet<'_>,
    goal: ReadGoal<'_>,
    count: usize,
    workings: &[u8],
    text: &mut [u8],
) -> Result<usize, Fault>
    requires variables_in_bounds { variables ≤ length goal.table.now }
    requires programmed { Programmed sheet.text.now sheet.table.now sheet.clauses goal.text.now goal.table.now goal.literals (met goal.table.now) count }
    ensures { (w : Programmed sheet.entry.text.now sheet.entry.table.now sheet.entry.clauses goal.entry.text.now goal.entry.table.now goal.entry.literals
        (met goal.entry.table.now) count) → OutcomeTold
        (over_replay w.tables.g (length text.old) (replay w.tables.sh (records_of workings.now) (begun w.tables.g))) text.old text.new result }
{
    let from = goal.table.len() - VARIABLES;
    load_and_check(sheet, goal, &goal.table[from..], count, workings, text)
}

/// The workings of a goal checked over a checked sheet that stands in its tables.
pub(crate) fn read_goal_and_check(
    declarations: Declarations<'_>,
    table: &[u32],
    k: usize,
    goal: &[u8],
    workings: &[u8],
    text: &mut [u8],
) -> Result<usize, Fault>
    requires { ProgramReady declarations.text.now declarations.words.now declarations.count table.now k }
    ensures { (w : ProgramReady declarations.entry.text.now declarations.entry.words.now declarations.entry.count table.now k)
        → OutcomeTold (over_goal workings.now (length text.old) w.stands.sheet (checked_goal w.stands.sheet goal.now)) text.old text.new result }
{
    let mut goals = [0; GOAL_WORDS];
    let read = read_goal_text(goal, &mut goals)?;
    let words = ReadText {
        text: goal,
        table: &goals,
    };
    match marks::clauses::check_goal(declarations, words, read.literals) {
        Ok(()) => {
            let sheet = ReadSheet {
                text: declarations.text,
                table,
                clauses: k,
            };
            let body = ReadGoal {
                text: goal,
                table: &goals,
                literals: read.literals,
            };
            check_goal_workings(sheet, body, read.count, workings, text)
        }
        Err(refusal) => Err(Fault {
            text: Text::Goal,
            refusal,
        }),
    }
}
