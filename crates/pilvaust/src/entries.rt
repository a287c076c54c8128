// The entries of a sheet's declarations, for a caller who lends a list of them.

ghost use Rattle.std.specs.Prelude.{◌≡◌, ◌≤◌, length};
ghost use Rattle.syntax.specs.Limits.{declarations};
ghost use Rattle.syntax.specs.Words.{declared_words};
ghost use Rattle.syntax.specs.Verdicts.{sheet_of, read_verdict};
ghost use Rattle.mode_rules.specs.Checking.{checked_sheet, check_verdict};
ghost use Rattle.output.specs.Listings.{ListingOf, overlay, declared_of, pasted};
ghost use Rattle.words.specs.Tables.{entry_from};

use crate::reading::{read_checked, read_text};
use output::listings::{Listing, listed};
use syntax::{DECLARED_WORDS, Entry, SHEET_WORDS, Verdict};
use words::tables::entry_at;

// Reads a sheet, for a list with room for `room` entries.
fn read_listing(sheet: &[u8], room: usize) -> Listing
    ensures { ListingOf (sheet_of sheet.now) room result }
{
    let mut words = [0; DECLARED_WORDS];
    let mut table = [0; SHEET_WORDS];
    let verdict = read_text(sheet, &mut words, &mut table);
    let count = listed(verdict, room);
    Listing {
        verdict,
        count,
        words,
    }
}

// Checks a sheet, for a list with room for `room` entries.
fn check_listing(sheet: &[u8], room: usize) -> Listing
    ensures { ListingOf (checked_sheet sheet.now) room result }
{
    let mut words = [0; DECLARED_WORDS];
    let mut table = [0; SHEET_WORDS];
    let verdict = read_checked(sheet, &mut words, &mut table, false);
    let count = listed(verdict, room);
    Listing {
        verdict,
        count,
        words,
    }
}

// Writes a listing's entries into the list and returns its verdict.
fn fill(found: Listing, entries: &mut [Entry]) -> Verdict
    requires { (declared_words ≡ length found.words) × ((found.count ≤ declarations) × (found.count ≤ length entries.old)) }
    ensures { (result ≡ found.verdict) × (entries.new ≡ pasted (entry_from found.words) found.count entries.old) }
{
    for i in 0..found.count {
        entries[i] = entry_at(&found.words, i);
    }
    found.verdict
}

/// Reads a sheet. Where it is accepted, the entries of its declarations are written, in sheet order, as far as the list goes; later entries stay as they were.
pub fn read_entries(sheet: &[u8], entries: &mut [Entry]) -> Verdict
    ensures { (result ≡ read_verdict sheet.now) × (entries.new ≡ overlay entries.old
        (declared_of (sheet_of sheet.now))) }
{
    fill(read_listing(sheet, entries.len()), entries)
}

/// Checks a sheet. Where it is accepted, the entries of its declarations are written, in sheet order, as far as the list goes; later entries stay as they were.
pub fn check_entries(sheet: &[u8], entries: &mut [Entry]) -> Verdict
    ensures { (result ≡ check_verdict sheet.now)
        × (entries.new ≡ overlay entries.old (declared_of (checked_sheet sheet.now))) }
{
    fill(check_listing(sheet, entries.len()), entries)
}
