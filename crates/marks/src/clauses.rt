// Refusals 8 to 10 of RULES: of a goal, and in `clause_faults` 9 and 10 of clauses, over the tables of words that the parser fills.

pub mod clause_faults;

ghost use Rattle.std.specs.Prelude.{◌≡◌};
ghost use Rattle.mode_rules.specs.Modes.{goal_fault};
ghost use Rattle.marks.specs.Tables.{GoalAt};
ghost use Rattle.marks.specs.Answers.{checked_of};

use crate::bodies::body_walk;
use crate::declarations::{ClauseCheck, Declarations, ReadText};
use crate::undeclared::undeclared_body;
use syntax::{Refusal, VARIABLES};

/// Refusals 8 and 9 of a goal whose `items` items stand in the table from place 0 on, by the sheet's declarations. A goal is clause 0.
pub fn check_goal(
    declarations: Declarations<'_>,
    read: ReadText<'_>,
    items: usize,
) -> Result<(), Refusal>
    requires { GoalAt declarations.text.now declarations.words.now declarations.count read.text.now read.table.now items }
    ensures { (w : GoalAt declarations.entry.text.now declarations.entry.words.now declarations.entry.count read.entry.text.now read.entry.table.now items)
        → result ≡ checked_of (goal_fault w.sheet w.goal) }
{
    let check = ClauseCheck {
        declarations,
        read,
        clause: 0,
    };
    undeclared_body(check, 0, items, 0)?;
    body_walk(check, 0, items, [false; VARIABLES])?;
    Ok(())
}
