// What single words say: a symbol's name, and a row of the stack on which a term is spelt.
ghost use Rattle.std.specs.Prelude.{◌≡◌, ◌+◌, ◌*◌, ◌^◌, ◌≤◌, ◌<◌, length, set};
ghost use Rattle.syntax.specs.Limits.{word_bytes};
ghost use Rattle.run_layout.specs.Regions.{copies, places, open_size};
ghost use Rattle.words.specs.Buffers.{Appended};
ghost use Rattle.run_layout.specs.SymbolNames.{name_at, NamePlaced};
ghost use Rattle.answers.specs.Words.{row_word, end_word, new_row, moved_row};
ghost use Rattle.answers.specs.Words.{row_place, row_more, span_word, row_last, row_copy};

use crate::Solution;
use run_layout::symbols::text_of;
use run_layout::{COPIES, OPEN_SIZE, symbol_place};
use words::buffers::append_part;
use words::packing::span_length;
use words::tables::word_at;

/// A row of the stack: the arguments of a name that are still to be spelt, from `place` up to `last`, in a copy.
#[derive(Clone, Copy)]
pub struct OpenRow {
    pub place: usize,
    /// Whether some arguments of the same list are spelt already.
    pub more: bool,
    pub last: usize,
    pub copy: usize,
}

impl<'a> Solution<'a> {
    /// Appends the name of symbol k and gives the position past it.
    pub fn append_name(self, k: usize, out: &mut [u8], at: usize) -> usize
        requires { (NamePlaced self.symbols.now self.sheet.now self.goal.now k) × (at + word_bytes < 2 ^ 64) }
        ensures wrote { Appended out.old at (name_at self.entry.symbols.now self.entry.sheet.now self.entry.goal.now k) out.new result }
        ensures near { result ≤ at + word_bytes }
    {
        let w = self.symbols[k];
        let len = span_length(w);
        let place = symbol_place(w);
        let text = text_of(w, self.sheet, self.goal);
        append_part(text, place, len, out, at)
    }
}

/// The row at a height of the stack.
pub fn row_at(stack: &[u32], h: usize) -> OpenRow
    requires { h * open_size + open_size ≤ length stack.now }
    ensures place { result.place ≡ row_place (row_word stack.now h) }
    ensures more { result.more ≡ row_more (row_word stack.now h) }
    ensures last { result.last ≡ row_last (end_word stack.now h) }
    ensures copy { result.copy ≡ row_copy (end_word stack.now h) }
{
    let i = h * OPEN_SIZE;
    let place = word_at(stack, i);
    let last = word_at(stack, i + 1);
    OpenRow {
        place: place / 2,
        more: place % 2 == 1,
        last: last / COPIES,
        copy: last % COPIES,
    }
}

/// Lays a row of arguments at height h, none of them spelt.
pub fn put_row(stack: &mut [u32], h: usize, place: usize, last: usize, copy: usize)
    requires { (h * open_size + open_size ≤ length stack.old) × ((place ≤ places) × ((last ≤ places) × (copy < copies))) }
    ensures { stack.new ≡ set (set stack.old (h * open_size) (new_row place)) (h * open_size + 1) (span_word last copy) }
{
    let i = h * OPEN_SIZE;
    stack[i] = (place * 2) as u32;
    stack[i + 1] = (last * COPIES + copy) as u32;
}

/// Moves the row at height h on to place: the arguments before it are spelt.
pub fn move_row(stack: &mut [u32], h: usize, place: usize)
    requires { (h * open_size + open_size ≤ length stack.old) × (place ≤ places) }
    ensures { stack.new ≡ set stack.old (h * open_size) (moved_row place) }
{
    let i = h * OPEN_SIZE;
    stack[i] = (place * 2 + 1) as u32;
}
