// A term spelt without recursion: the stack has a row for each bracket that is open.
ghost use Rattle.std.specs.Prelude.{◌≡◌, ◌⊎◌, List, ℕ, ◌+◌, ◌-◌, ◌*◌, ◌^◌, ◌≤◌, ◌<◌};
ghost use Rattle.syntax.specs.Limits.{word_bytes};
ghost use Rattle.run_layout.specs.Regions.{open_size};
ghost use Rattle.machine.specs.Substitution.{Variable, Binding, resolve};
ghost use Rattle.machine.specs.Answers.{Piece, spelt, bytes_of};
ghost use Rattle.run_layout.specs.Nodes.{Symbol, term_at};
ghost use Rattle.answers.specs.Words.{Numbers, left_to_spell};
ghost use Rattle.answers.specs.Telling.{Ample, Counting, Heading, SomeHeading, Setting, SomeSetting, Facing, SomeFacing, Spelling};
ghost use Rattle.answers.specs.Telling.{SpeltToLimit, bindings_of, separator_of, written, walked};

use crate::Solution;
use crate::numbers::append_unbound;
use crate::records::{move_row, put_row, row_at};
use bindings::store::deref;
use run_layout::terms::At;
use run_layout::{LOADED_NODE, cell_of};
use syntax::FIRST_NAME;
use words::buffers::append_byte;
use words::tables::word_at;

/// How far a walk has come: the position in the text, and how many rows are on the stack.
#[derive(Clone, Copy)]
pub struct SpellWalk {
    pub at: usize,
    pub height: usize,
}

// An open bracket before the first argument, a comma before another.
fn separator(more: bool) -> u8
    ensures { result ≡ separator_of more }
{
    if more { b',' } else { b'(' }
}

impl<'a> Solution<'a> {
    // A name, and on the stack its arguments; or an unbound variable.
    fn append_head(
        self,
        t: At,
        numbers: &mut [u32],
        stack: &mut [u32],
        out: &mut [u8],
        at: usize,
        height: usize,
    ) -> SpellWalk
        requires some_heading { SomeHeading self stack.old t.node t.copy height }
        requires counting { Counting numbers.old at }
        ensures told { (ss : List Symbol) (b : List Binding) (met : List Variable) (rest : List Piece)
            → Heading ss b self.entry stack.old t.node t.copy height
            → Numbers numbers.old met → Spelling ss self.entry.nodes.now b (bytes_of met (spelt (resolve b
            (term_at ss self.entry.nodes.now t.node t.copy)) (left_to_spell ss self.entry.nodes.now b stack.old height rest)))
            (written numbers.old out.old at) (walked numbers.new stack.new out.new result.at result.height) rest }
        ensures near { (at ≤ result.at) × ((result.at ≤ at + word_bytes) × (result.height ≤ height + 1)) }
    {
        let p = t.node;
        let w = word_at(self.nodes, p);
        if w < FIRST_NAME {
            let x = cell_of(t.copy, w);
            let past = append_unbound(numbers, x, out, at);
            return SpellWalk { at: past, height };
        }
        let k = w - FIRST_NAME;
        let past = self.append_name(k, out, at);
        let size = word_at(self.nodes, p + 1);
        if size == LOADED_NODE {
            return SpellWalk { at: past, height };
        }
        let first = p + LOADED_NODE;
        let last = p + size;
        put_row(stack, height, first, last, t.copy);
        let higher = height + 1;
        SpellWalk {
            at: past,
            height: higher,
        }
    }

    /// Appends the name or the unbound variable to which a term leads, and lays the name's arguments on the stack.
    pub fn append_term(
        self,
        t: At,
        numbers: &mut [u32],
        stack: &mut [u32],
        out: &mut [u8],
        at: usize,
        height: usize,
    ) -> SpellWalk
        requires some_facing { SomeFacing self stack.old t.node t.copy height }
        requires counting { Counting numbers.old at }
        ensures told { (ss : List Symbol) (n : ℕ) (met : List Variable) (rest : List Piece)
            → Facing ss n self.entry stack.old t.node t.copy height
            → Numbers numbers.old met → Spelling ss self.entry.nodes.now (bindings_of ss n self.entry)
            (bytes_of met (spelt (resolve (bindings_of ss n self.entry) (term_at ss self.entry.nodes.now t.node t.copy))
            (left_to_spell ss self.entry.nodes.now (bindings_of ss n self.entry) stack.old height rest)))
            (written numbers.old out.old at) (walked numbers.new stack.new out.new result.at result.height) rest }
        ensures near { (at ≤ result.at) × ((result.at ≤ at + word_bytes) × (result.height ≤ height + 1)) }
    {
        let end = deref(self.nodes, self.state, t);
        self.append_head(end, numbers, stack, out, at, height)
    }

    // The next argument of the topmost row, or its closing bracket.
    fn turn(
        self,
        numbers: &mut [u32],
        stack: &mut [u32],
        out: &mut [u8],
        at: usize,
        height: usize,
    ) -> SpellWalk
        requires some_setting { SomeSetting self stack.old height }
        requires height_nonzero { (0 < height) × ((Counting numbers.old at) × ((at + 200 < 2 ^ 64) × Ample stack.old (height * open_size + open_size))) }
        ensures told { (ss : List Symbol) (n : ℕ) (met : List Variable) (rest : List Piece)
            → Setting ss n self.entry stack.old height
            → Numbers numbers.old met → Spelling ss self.entry.nodes.now (bindings_of ss n self.entry)
            (bytes_of met (left_to_spell ss self.entry.nodes.now (bindings_of ss n self.entry) stack.old height rest))
            (written numbers.old out.old at) (walked numbers.new stack.new out.new result.at result.height) rest }
        ensures near { (at < result.at) × ((result.at ≤ at + (word_bytes + 1)) × (result.height ≤ height + 1)) }
    {
        let top = height - 1;
        let row = row_at(stack, top);
        let place = row.place;
        if place == row.last {
            let past = append_byte(b')', out, at);
            return SpellWalk {
                at: past,
                height: top,
            };
        }
        let mark = separator(row.more);
        let past = append_byte(mark, out, at);
        let next = words::tables::past(self.nodes, place);
        move_row(stack, top, next);
        let t = At {
            node: place,
            copy: row.copy,
        };
        self.append_term(t, numbers, stack, out, past, height)
    }

    /// Appends what the stack has left to spell and gives the position past it; it stops once the limit is passed. A turn spells a byte or more and adds at
    /// most one row, so a row for each byte is room enough.
    pub fn append_rows(
        self,
        numbers: &mut [u32],
        stack: &mut [u32],
        out: &mut [u8],
        at: usize,
        height: usize,
        limit: usize,
    ) -> usize
        requires some_setting { SomeSetting self stack.old height }
        requires counting { (Counting numbers.old at) × ((limit + 200 < 2 ^ 64) × Ample stack.old (height * open_size + (limit + 1 - at) * open_size)) }
        ensures told { (ss : List Symbol) (n : ℕ) (met : List Variable) (rest : List Piece)
            → Setting ss n self.entry stack.old height
            → Numbers numbers.old met → SpeltToLimit limit (bytes_of met (left_to_spell ss self.entry.nodes.now
            (bindings_of ss n self.entry) stack.old height rest)) (written numbers.old out.old at) (written numbers.new out.new result) rest }
        ensures near { (at ≤ result) × ((result ≤ limit + (word_bytes + 1)) ⊎ (result ≡ at)) }
    {
        let mut past = at;
        let mut rows = height;
        // A turn may lay a row, which takes turns of its own, so the number of turns is known only at the end.
        while rows != 0 && past <= limit {
            let turned = self.turn(numbers, stack, out, past, rows);
            past = turned.at;
            rows = turned.height;
        }
        past
    }
}
