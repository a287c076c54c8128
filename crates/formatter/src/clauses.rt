// Clauses.

ghost use Rattle.std.specs.Prelude.{[], ◌+◌, ◌-◌, ◌*◌, ◌^◌, ◌<◌, length};
ghost use Rattle.words.specs.Buffers.{Appended};
ghost use Rattle.marks.specs.InTables.{ClauseIn};
ghost use Rattle.format_rules.specs.Writing.{clause_text, clauses_text};
ghost use Rattle.formatter.specs.Tables.{ClausesIn, word_room};

use crate::bodies::append_body;
use crate::terms::append_term;
use marks::declarations::ReadText;
use syntax::CLAUSE_START;
use words::buffers::append_all;
use words::tables::{CLAUSE_ITEMS, past, past_clause, word_at};

// The clause at a place.
fn append_clause(read: ReadText<'_>, p: usize, out: &mut [u8], at: usize) -> usize
    requires stands { ClauseIn read p }
    requires room { at + word_room * (length read.table.now - p) < 2 ^ 63 }
    ensures { (w : ClauseIn read.entry p) → Appended out.old at (clause_text w.clause []) out.new result }
{
    let items = word_at(read.table, p + CLAUSE_ITEMS);
    let head = p + CLAUSE_START;
    let past_head = append_term(read, head, out, at);
    if items == 0 {
        return append_all(b".\n", out, past_head);
    }
    let past_neck = append_all(b":-", out, past_head);
    let first = past(read.table, head);
    let past_body = append_body(read, first, items, out, past_neck);
    append_all(b".\n", out, past_body)
}

/// So many clauses from the table's beginning on.
pub fn append_clauses(read: ReadText<'_>, clauses: usize, out: &mut [u8], at: usize) -> usize
    requires stand { ClausesIn read clauses }
    requires room { at + word_room * length read.table.now < 2 ^ 63 }
    ensures { (w : ClausesIn read.entry clauses) → Appended out.old at (clauses_text w.list) out.new result }
{
    let mut place = 0;
    let mut written = at;
    for _ in 0..clauses {
        written = append_clause(read, place, out, written);
        place = past_clause(read.table, place);
    }
    written
}
