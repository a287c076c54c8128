// The whole sheet: measured with a buffer of no bytes, then written.

ghost use Rattle.std.specs.Prelude.{◌≡◌, ◌&&◌, leb, length};
ghost use Rattle.syntax.specs.Limits.{sheet_bytes};
ghost use Rattle.words.specs.Buffers.{Appended};
ghost use Rattle.format_rules.specs.Writing.{formatted};
ghost use Rattle.format_rules.specs.Formatting.{fitting, format_buffer};
ghost use Rattle.formatter.specs.Tables.{SheetIn};
ghost use Rattle.formatter.specs.Sheets.{length_of};

use crate::clauses::append_clauses;
use crate::declarations::append_declarations;
use marks::declarations::{Declarations, ReadText};
use syntax::{Refusal, SHEET_BYTES};

// The declarations and behind them the clauses, so many, that stand in the table.
fn append_sheet(
    declarations: Declarations<'_>,
    table: &[u32],
    clauses: usize,
    out: &mut [u8],
) -> usize
    requires { SheetIn declarations table.now clauses }
    ensures { (w : SheetIn declarations.entry table.now clauses) → Appended out.old 0 (formatted w.stands.sheet) out.new result }
{
    let past_declarations = append_declarations(declarations, out);
    let read = ReadText {
        text: declarations.text,
        table,
    };
    append_clauses(read, clauses, out, past_declarations)
}

// Whether so many bytes are no more than a sheet may have and the buffer has.
fn fits(length: usize, room: usize) -> bool
    ensures { result ≡ (leb length sheet_bytes && leb length room) }
{
    length <= SHEET_BYTES && length <= room
}

/// A sheet written afresh: the length of what is written; or the refusal, where that exceeds the bytes of a sheet or the buffer, and nothing is written.
pub fn write_sheet(
    declarations: Declarations<'_>,
    table: &[u32],
    clauses: usize,
    out: &mut [u8],
) -> Result<usize, Refusal>
    requires { SheetIn declarations table.now clauses }
    ensures is { (w : SheetIn declarations.entry table.now clauses) → result ≡ length_of (fitting (length out.old) (formatted w.stands.sheet)) }
    ensures buffer { (w : SheetIn declarations.entry table.now clauses)
        → out.new ≡ format_buffer (fitting (length out.old) (formatted w.stands.sheet)) out.old }
{
    let length = append_sheet(declarations, table, clauses, &mut []);
    if !fits(length, out.len()) {
        return Err(Refusal::OutputTooLong);
    }
    Ok(append_sheet(declarations, table, clauses, out))
}
