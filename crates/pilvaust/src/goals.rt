// A goal checked over a sheet that was checked and stands in its tables.

ghost use Rattle.std.specs.Prelude.{◌≡◌, ◌≤◌, ◌<◌, ◌^◌, length};
ghost use Rattle.syntax.specs.Terms.{Goal};
ghost use Rattle.syntax.specs.Verdicts.{accepted, goal_outcome};
ghost use Rattle.syntax.specs.Words.{sheet_words, body_words};
ghost use Rattle.words.specs.Tables.{WordsAt};
ghost use Rattle.mode_rules.specs.Checking.{checked_goal, goal_answer};
ghost use Rattle.pilvaust.specs.Tables.{SheetTabled};

use crate::reading::read_goal_text;
use marks::declarations::{Declarations, ReadText};
use syntax::{Counts, Fault, Text, Verdict};

/// Reads a goal and checks it over the declarations of a checked sheet, which has `k` clauses: accepted with the sheet's counts, or the goal's refusal. The
/// table is for the goal's words, which it holds where the goal is read.
pub(crate) fn goal_over(
    declarations: Declarations<'_>,
    k: usize,
    goal: &[u8],
    table: &mut [u32],
) -> Verdict
    requires over { SheetTabled declarations.text.now declarations.words.now declarations.count k }
    requires sheet_words_in_bounds { (sheet_words ≤ length table.old) × (length table.old < 2 ^ 31) }
    ensures is { (w : SheetTabled declarations.entry.text.now declarations.entry.words.now declarations.entry.count k) → result ≡ goal_answer w.sheet
        (checked_goal w.sheet goal.now) }
    ensures holds { (g : Goal) → goal_outcome goal.now ≡ accepted g → WordsAt table.new 0 (body_words g.body) }
{
    let read = read_goal_text(goal, table)?;
    let body = ReadText { text: goal, table };
    match marks::clauses::check_goal(declarations, body, read.literals) {
        Ok(()) => Ok(Counts {
            declarations: declarations.count,
            clauses: k,
        }),
        Err(refusal) => Err(Fault {
            text: Text::Goal,
            refusal,
        }),
    }
}
