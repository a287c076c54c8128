// Refusal 8: the first head or call without declaration, in a body and in the clauses of a sheet, by the declarations of the sheet.

ghost use Rattle.std.specs.Prelude.{◌≡◌};
ghost use Rattle.mode_rules.specs.Modes.{undeclared_body, undeclared_clause, undeclared_clauses};
ghost use Rattle.marks.specs.Tables.{ClausesAt};
ghost use Rattle.marks.specs.Answers.{checked_of};
ghost use Rattle.words.specs.Tables.{WordsAt};
ghost use Rattle.words.specs.Items.{Item, item_words};
ghost use Rattle.marks.specs.Items.{ItemIn, undeclared_item, literals_at};
ghost use Rattle.marks.specs.InTables.{DeclarationsIn, BodyIn, ClauseIn};

use crate::declarations::{ClauseCheck, Declarations, ReadText};
use syntax::{CALL_KIND, CLAUSE_START, LEFT_KIND, Refusal};
use words::tables::{CLAUSE_ITEMS, past, past_clause, past_item, word_at};

// Refusal 8 of the item at `p`, where it is a call without declaration.
fn undeclared_item(
    check: ClauseCheck<'_>,
    p: usize,
    literal: usize,
    near: usize,
) -> Result<(), Refusal>
    requires { ItemIn check.read p }
    ensures { (d : DeclarationsIn check.entry.declarations) (w : ItemIn check.entry.read p)
        → result ≡ checked_of (undeclared_item d.list check.entry.clause literal w.item) }
{
    if word_at(check.read.table, p) != CALL_KIND {
        return Ok(());
    }
    let q = p + 1;
    check.undeclared_atom(q, literal, near)
}

// How many literals an item counts for: a word of a bracket counts for none.
fn literals_at(table: &[u32], p: usize) -> usize
    requires { (x : Item) × WordsAt table.now p (item_words x) }
    ensures { (x : Item) → WordsAt table.now p (item_words x) → result ≡ literals_at x }
{
    if LEFT_KIND <= word_at(table, p) {
        return 0;
    }
    1
}

/// Refusal 8 of the first call without declaration in a body whose `items` items stand from `p` on, inside brackets too; declaration `near` is tried first.
pub fn undeclared_body(
    check: ClauseCheck<'_>,
    p: usize,
    items: usize,
    near: usize,
) -> Result<(), Refusal>
    requires { BodyIn check.read p items }
    ensures { (d : DeclarationsIn check.entry.declarations) (w : BodyIn check.entry.read p items)
        → result ≡ checked_of (undeclared_body d.list check.entry.clause 1 w.body) }
{
    let table = check.read.table;
    let mut at = p;
    let mut literal = 1;
    for _item in 0..items {
        undeclared_item(check, at, literal, near)?;
        literal += literals_at(table, at);
        at = past_item(table, at);
    }
    Ok(())
}

// The number of the declaration of the head of the clause at `p`; `near`, which is tried first, where it has none. It only says where to look first, so any
// number would do.
fn head_near(check: ClauseCheck<'_>, p: usize, near: usize) -> usize
    requires { ClauseIn check.read p }
{
    let head = p + CLAUSE_START;
    check
        .declarations
        .find_near(check.read, head, near)
        .unwrap_or(near)
}

// Refusal 8 of the clause at `p`: the first of its head and calls that has no declaration.
fn undeclared_clause(check: ClauseCheck<'_>, p: usize, near: usize) -> Result<(), Refusal>
    requires { ClauseIn check.read p }
    ensures { (d : DeclarationsIn check.entry.declarations) (w : ClauseIn check.entry.read p) → result
        ≡ checked_of (undeclared_clause d.list check.entry.clause w.clause) }
{
    let table = check.read.table;
    let items = word_at(table, p + CLAUSE_ITEMS);
    let head = p + CLAUSE_START;
    check.undeclared_atom(head, 0, near)?;
    let first = past(table, head);
    undeclared_body(check, first, items, near)
}

/// Refusal 8 of the first head or call without declaration in a sheet, whose clauses stand in the table from place 0 on and have the numbers from 1 on.
pub fn undeclared_clauses(
    declarations: Declarations<'_>,
    table: &[u32],
    clauses: usize,
) -> Result<(), Refusal>
    requires { ClausesAt declarations.text.now table.now 0 clauses }
    ensures { (d : DeclarationsIn declarations.entry) (w : ClausesAt declarations.entry.text.now table.now 0 clauses) → result
        ≡ checked_of (undeclared_clauses d.list 1 w.list) }
{
    let mut at = 0;
    let mut near = 0;
    for i in 0..clauses {
        let check = ClauseCheck {
            declarations,
            read: ReadText {
                text: declarations.text,
                table,
            },
            clause: i + 1,
        };
        near = head_near(check, at, near);
        undeclared_clause(check, at, near)?;
        at = past_clause(table, at);
    }
    Ok(())
}
