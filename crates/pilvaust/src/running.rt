// A goal run over a sheet that was checked and stands in its tables.

ghost use Rattle.std.specs.Prelude.{◌≤◌, length};
ghost use Rattle.syntax.specs.Limits.{variables};
ghost use Rattle.syntax.specs.Spans.{met};
ghost use Rattle.run.specs.Running.{RunWritten};
ghost use Rattle.run.specs.Programs.{Programmed};
ghost use Rattle.mode_rules.specs.Checking.{checked_goal};
ghost use Rattle.machine.specs.Runs.{over_goal};
ghost use Rattle.pilvaust.specs.Goals.{ProgramReady, OutcomeWritten};

use crate::reading::read_goal_text;
use load::node_words::{ReadGoal, ReadSheet};
use marks::declarations::{Declarations, ReadText};
use output::results::{Written, goal_refused, run_ended};
use run::loaded_runs::load_and_run;
use syntax::{Fault, GOAL_WORDS, RunSettings, VARIABLES};

// Runs a goal that was read into its table, with the words of its `count` variables last, over a sheet that was read.
fn check_goal_and_run(
    sheet: ReadSheet<'_>,
    goal: ReadGoal<'_>,
    count: usize,
    text: &mut [u8],
    allowance: usize,
    wanted: usize,
) -> Written
    requires variables_in_bounds { variables ≤ length goal.table.now }
    requires programmed { Programmed sheet.text.now sheet.table.now sheet.clauses goal.text.now goal.table.now goal.literals (met goal.table.now) count }
    ensures { (w : Programmed sheet.entry.text.now sheet.entry.table.now sheet.entry.clauses goal.entry.text.now goal.entry.table.now goal.entry.literals
        (met goal.entry.table.now) count) → RunWritten w.tables.sh w.tables.g allowance wanted text.old text.new result }
{
    let from = goal.table.len() - VARIABLES;
    load_and_run(
        sheet,
        goal,
        &goal.table[from..],
        count,
        text,
        allowance,
        wanted,
    )
}

/// Reads a goal, checks it and runs it as asked over a checked sheet that stands in its tables, with `k` clauses: the report and how many bytes are written, or
/// the goal's refusal, 2 to 6, 8 or 9.
pub(crate) fn read_goal_and_run(
    declarations: Declarations<'_>,
    table: &[u32],
    k: usize,
    goal: &[u8],
    asked: RunSettings,
    text: &mut [u8],
) -> Result<Written, Fault>
    requires { ProgramReady declarations.text.now declarations.words.now declarations.count table.now k }
    ensures { (w : ProgramReady declarations.entry.text.now declarations.entry.words.now declarations.entry.count table.now k)
        → OutcomeWritten (over_goal w.stands.sheet asked.allowance asked.wanted (length text.old) (checked_goal w.stands.sheet goal.now))
        text.old text.new result }
{
    let mut goals = [0; GOAL_WORDS];
    let read = read_goal_text(goal, &mut goals)?;
    let words = ReadText {
        text: goal,
        table: &goals,
    };
    match marks::clauses::check_goal(declarations, words, read.literals) {
        Ok(()) => {
            let sheet = ReadSheet {
                text: declarations.text,
                table,
                clauses: k,
            };
            let body = ReadGoal {
                text: goal,
                table: &goals,
                literals: read.literals,
            };
            let ran = check_goal_and_run(
                sheet,
                body,
                read.count,
                text,
                asked.allowance,
                asked.wanted,
            );
            run_ended(ran.report, ran.bytes)
        }
        Err(refusal) => goal_refused(refusal),
    }
}
