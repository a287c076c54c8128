// A list of three entries lent to the functions that fill one: the list goes in and comes out as a value.

ghost use Rattle.std.specs.Prelude.{◌≡◌, length};
ghost use Rattle.syntax.specs.Verdicts.{sheet_of, read_verdict};
ghost use Rattle.mode_rules.specs.Checking.{checked_sheet, check_verdict};
ghost use Rattle.output.specs.Listings.{overlay, declared_of};

use crate::entries::{check_entries, read_entries};
use syntax::{Entry, Verdict};

// How many entries a list has; the contracts below have the number itself.
const ENTRIES: usize = 3;

/// A verdict, and the list after it.
#[derive(Clone, Copy)]
pub struct Lent {
    pub verdict: Verdict,
    pub list: [Entry; ENTRIES],
}

/// Reads a sheet with this list lent.
pub fn read_lent(sheet: &[u8], mut list: [Entry; ENTRIES]) -> Lent
    ensures { (result.verdict ≡ read_verdict sheet.now) × ((result.list ≡ overlay list (declared_of (sheet_of sheet.now)))
        × (3 ≡ length result.list)) }
{
    let verdict = read_entries(sheet, &mut list);
    Lent { verdict, list }
}

/// Checks a sheet with this list lent.
pub fn check_lent(sheet: &[u8], mut list: [Entry; ENTRIES]) -> Lent
    ensures { (result.verdict ≡ check_verdict sheet.now) × ((result.list ≡ overlay list (declared_of (checked_sheet sheet.now)))
        × (3 ≡ length result.list)) }
{
    let verdict = check_entries(sheet, &mut list);
    Lent { verdict, list }
}
