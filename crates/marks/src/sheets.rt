// Declared predicates without a clause, refusal 16; and the tests of a sheet that was read, in their order.

ghost use Rattle.std.specs.Prelude.{◌≡◌, ◌||◌, ◌<◌};
ghost use Rattle.mode_rules.specs.Modes.{sheet_fault};
ghost use Rattle.mode_rules.specs.Written.{is_exempt, first_unwritten, unwritten};
ghost use Rattle.marks.specs.Answers.{checked_of};
ghost use Rattle.marks.specs.Repeating.{nth_declaration};
ghost use Rattle.marks.specs.Flags.{StandOnce, Flagged};
ghost use Rattle.marks.specs.InTables.{DeclarationsIn};

use crate::clauses::clause_faults::clauses_fault;
use crate::declarations::{Declarations, ReadText};
use crate::undeclared::undeclared_clauses;
use syntax::{CLAUSE_START, DECLARATIONS, Refusal};
use words::tables::past_clause;

/// A flag for each declaration that a sheet may have: whether it has a clause.
pub type Flags = [bool; DECLARATIONS];

// Which declarations have a clause, by one pass over the heads.
fn head_flags(declarations: Declarations<'_>, table: &[u32], clauses: usize) -> Flags
    requires { StandOnce declarations table.now clauses }
    ensures { (w : StandOnce declarations.entry table.now clauses)
        → Flagged result w.stands.sheet.declarations w.stands.sheet.clauses }
{
    let read = ReadText {
        text: declarations.text,
        table,
    };
    let mut flags = [false; DECLARATIONS];
    let mut at = 0;
    let mut near = 0;
    for _clause in 0..clauses {
        let head = at + CLAUSE_START;
        if let Some(found) = declarations.find_near(read, head, near) {
            flags[found] = true;
            near = found;
        }
        at = past_clause(table, at);
    }
    flags
}

/// Whether declaration `i` passes 16: it has a clause, as `written` says, or needs none.
pub fn may_stay(declarations: Declarations<'_>, i: usize, written: bool) -> bool
    requires { i < declarations.count }
    ensures { (d : DeclarationsIn declarations.entry) → result ≡ (written || is_exempt (nth_declaration d.list i)) }
{
    written || declarations.is_seen(i)
}

// Refusal 16: the first declaration that has no clause and needs one.
fn first_unwritten(
    declarations: Declarations<'_>,
    table: &[u32],
    clauses: usize,
) -> Result<(), Refusal>
    requires { StandOnce declarations table.now clauses }
    ensures { (w : StandOnce declarations.entry table.now clauses) → result
        ≡ checked_of (first_unwritten w.stands.sheet.clauses w.stands.sheet.declarations) }
{
    let flags = head_flags(declarations, table, clauses);
    for i in 0..declarations.count {
        if !may_stay(declarations, i, flags[i]) {
            return Err(Refusal::Unwritten(declarations.name_of(i).at));
        }
    }
    Ok(())
}

// Refusal 16, which is passed over for a sheet stored earlier: the host says of each sheet whether it was.
fn unwritten_fault(
    declarations: Declarations<'_>,
    table: &[u32],
    clauses: usize,
    stored: bool,
) -> Result<(), Refusal>
    requires { StandOnce declarations table.now clauses }
    ensures { (w : StandOnce declarations.entry table.now clauses) → result
        ≡ checked_of (unwritten stored w.stands.sheet) }
{
    if stored {
        return Ok(());
    }
    first_unwritten(declarations, table, clauses)
}

/// The tests of a sheet whose declarations and `clauses` clauses stand in the tables and that 7 has passed: 8, then 16, then 9 and 10. With the mark `stored`
/// 16 is passed over.
pub fn check_sheet(
    declarations: Declarations<'_>,
    table: &[u32],
    clauses: usize,
    stored: bool,
) -> Result<(), Refusal>
    requires { StandOnce declarations table.now clauses }
    ensures { (w : StandOnce declarations.entry table.now clauses) → result
        ≡ checked_of (sheet_fault stored w.stands.sheet) }
{
    undeclared_clauses(declarations, table, clauses)?;
    unwritten_fault(declarations, table, clauses, stored)?;
    clauses_fault(declarations, table, clauses)
}
