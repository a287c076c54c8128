// Refusals 9 and 10 of the clauses of a sheet, by its declarations.
ghost use Rattle.std.specs.Prelude.{◌≡◌, ◌+◌};
ghost use Rattle.mode_rules.specs.Modes.{clause_fault, clauses_fault};
ghost use Rattle.marks.specs.Tables.{ClausesAt};
ghost use Rattle.marks.specs.Answers.{checked_of};
ghost use Rattle.marks.specs.InTables.{DeclarationsIn, ClauseIn};

use crate::arguments::{ground_marked, head_fault};
use crate::bodies::body_walk;
use crate::declarations::{ClauseCheck, Declarations, ReadText};
use syntax::{CLAUSE_START, INPUT, NODE_WORDS, Refusal, VARIABLES};
use words::tables::{CLAUSE_ITEMS, past, past_clause, word_at};

// The clause at `p`: the first fault along its body, then that of its head.
fn clause_fault(check: ClauseCheck<'_>, p: usize) -> Result<(), Refusal>
    requires { ClauseIn check.read p }
    ensures { (d : DeclarationsIn check.entry.declarations) (w : ClauseIn check.entry.read p) → result
        ≡ checked_of (clause_fault d.list check.entry.clause w.clause) }
{
    let table = check.read.table;
    let items = word_at(table, p + CLAUSE_ITEMS);
    let head = p + CLAUSE_START;
    let marks = check.declarations.marks_of(check.read, head);
    let from = head + NODE_WORDS;
    let first = past(table, head);
    let start = ground_marked(table, from, first, marks, INPUT, [false; VARIABLES]);
    let known = body_walk(check, first, items, start)?;
    head_fault(table, head, marks, known, check.clause)
}

/// The first of refusals 9 and 10 among the clauses in turn, which stand in the table from place 0 on and have the numbers from 1 on.
pub fn clauses_fault(
    declarations: Declarations<'_>,
    table: &[u32],
    clauses: usize,
) -> Result<(), Refusal>
    requires { ClausesAt declarations.text.now table.now 0 clauses }
    ensures { (d : DeclarationsIn declarations.entry) (w : ClausesAt declarations.entry.text.now table.now 0 clauses) → result
        ≡ checked_of (clauses_fault d.list 1 w.list) }
{
    let mut at = 0;
    for i in 0..clauses {
        let check = ClauseCheck {
            declarations,
            read: ReadText {
                text: declarations.text,
                table,
            },
            clause: i + 1,
        };
        clause_fault(check, at)?;
        at = past_clause(table, at);
    }
    Ok(())
}
