// A sheet and a goal read into words of tables, and a sheet held against its marks.

ghost use Rattle.std.specs.Prelude.{◌≡◌, ◌≤◌, ◌<◌, ◌^◌, length};
ghost use Rattle.syntax.specs.Words.{sheet_words, goal_words, declared_words};
ghost use Rattle.syntax.specs.Terms.{Sheet};
ghost use Rattle.syntax.specs.Verdicts.{accepted, sheet_of, read_verdict};
ghost use Rattle.mode_rules.specs.Checking.{checked_with, verdict_with};
ghost use Rattle.pilvaust.specs.Tables.{Tabled, GoalTabled};

use marks::declarations::Declarations;
use marks::repeats::first_repeat;
use marks::sheets::check_sheet;
use output::refusals::is_too_long;
use parse::sheets::items::read_items;
use syntax::{Counts, Fault, GOAL_BYTES, Refusal, SHEET_BYTES, Text, Verdict};

// The fault that a refusal of a text is.
fn fault_in(text: Text, refusal: Refusal) -> Fault
    ensures { result ≡ record { text = text; refusal = refusal } }
{
    Fault { text, refusal }
}

/// Reads a sheet into its tables: accepted with its counts, or the refusal, 2 to 7. `declared` takes the declarations, `table` the clauses.
pub(crate) fn read_text(sheet: &[u8], declared: &mut [u32], table: &mut [u32]) -> Verdict
    requires { (declared_words ≤ length declared.old) × ((sheet_words ≤ length table.old) × (length table.old < 2 ^ 31)) }
    ensures is { result ≡ read_verdict sheet.now }
    ensures holds { (sh : Sheet) → sheet_of sheet.now ≡ accepted sh → Tabled sheet.now declared.new
        table.new sh }
{
    if is_too_long::<SHEET_BYTES>(sheet.len()) {
        return Err(fault_in(Text::Sheet, Refusal::TooLong));
    }
    match read_items(sheet, declared, table) {
        Err(stop) => Err(fault_in(Text::Sheet, stop.refusal)),
        Ok(r) => {
            let declarations = Declarations {
                text: sheet,
                words: declared,
                count: r.declarations,
            };
            match first_repeat(declarations) {
                Some(byte) => Err(fault_in(Text::Sheet, Refusal::Repeated(byte))),
                None => Ok(Counts {
                    declarations: r.declarations,
                    clauses: r.clauses,
                }),
            }
        }
    }
}

/// A goal that was read: how many literals it has, and how many variables (`count`), whose first occurrences stand in the last words of the table.
#[derive(Clone, Copy)]
pub(crate) struct GoalRead {
    pub literals: usize,
    pub count: usize,
}

/// Reads a goal into its table, or gives its refusal, 2 to 6.
pub(crate) fn read_goal_text(goal: &[u8], table: &mut [u32]) -> Result<GoalRead, Fault>
    requires { (goal_words ≤ length table.old) × (length table.old < 2 ^ 31) }
    ensures { GoalTabled goal.now table.new result }
{
    if is_too_long::<GOAL_BYTES>(goal.len()) {
        return Err(fault_in(Text::Goal, Refusal::TooLong));
    }
    match parse::sheets::items::read_goal(goal, table) {
        Err(refusal) => Err(fault_in(Text::Goal, refusal)),
        Ok(r) => Ok(GoalRead {
            literals: r.items,
            count: r.state.count,
        }),
    }
}

/// Reads a sheet into its tables and holds it against its marks: accepted with its counts, or the refusal, 2 to 10 or 16. With the mark `stored`, for a sheet
/// stored earlier, declared predicates may have no clause.
pub(crate) fn read_checked(
    sheet: &[u8],
    declared: &mut [u32],
    table: &mut [u32],
    stored: bool,
) -> Verdict
    requires { (declared_words ≤ length declared.old) × ((sheet_words ≤ length table.old) × (length table.old < 2 ^ 31)) }
    ensures is { result ≡ verdict_with stored sheet.now }
    ensures holds { (sh : Sheet) → checked_with stored sheet.now ≡ accepted sh
        → Tabled sheet.now declared.new table.new sh }
{
    let counts = read_text(sheet, declared, table)?;
    let declarations = Declarations {
        text: sheet,
        words: declared,
        count: counts.declarations,
    };
    match check_sheet(declarations, table, counts.clauses, stored) {
        Err(refusal) => Err(fault_in(Text::Sheet, refusal)),
        Ok(()) => Ok(counts),
    }
}
