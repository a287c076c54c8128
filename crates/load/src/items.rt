// The record of a body's item.

ghost use Rattle.std.specs.Prelude.{◌≡◌};
ghost use Rattle.words.specs.Tables.{WordsAt};
ghost use Rattle.words.specs.Items.{Item, item_words};
ghost use Rattle.load.specs.ItemsRecords.{kind_of, other_of};
ghost use Rattle.load.specs.Search.{Meant};
ghost use Rattle.load.specs.ItemsPlaces.{ItemTo};
ghost use Rattle.load.specs.Records.{put_record};

use crate::next_clauses::{Heads, next_for};
use crate::records::{Places, literal_from, next_literal, put_record};
use run_layout::{JUMP_KIND, SPLIT_KIND};
use syntax::{BEHIND_KIND, CALL_KIND, EQUATION_KIND, LEFT_KIND};
use words::packing::{items_of_side, kind_of_item};
use words::tables::{past, word_at};

// The words around a side: the one before it, and the one behind it.
const SIDE_ENDS: usize = 2;

// The kind of an item's record: of a plain literal its own; where a bracket begins its sides part, and at its other words a side ends. A plain literal's kind
// is the same number in both tables.
fn kind_of(table: &[u32], p: usize) -> usize
    requires { (x : Item) × WordsAt table.now p (item_words x) }
    ensures { (x : Item) → WordsAt table.now p (item_words x) → result ≡ kind_of x }
{
    let word = word_at(table, p);
    if word <= EQUATION_KIND {
        return word;
    }
    let kind = kind_of_item(word);
    if kind == LEFT_KIND {
        return SPLIT_KIND;
    }
    JUMP_KIND
}

// The third word of an item's record: the topmost clause for a call, the place of the right term of an equation, or the record behind the side that the word
// of a bracket begins. Truth and falsehood have none; the word is 0 then, and nothing reads it.
fn other_of(table: &[u32], heads: Heads, code: &[u32], at: Places) -> usize
    requires { (m : Meant) × ((x : Item) × ItemTo m x table.now heads code.now at) }
    ensures { (m : Meant) (x : Item) → ItemTo m x table.now heads.entry code.now at
        → result ≡ other_of m.ss m.sh at.node at.literal x }
{
    let word = word_at(table, at.read);
    if word < CALL_KIND {
        return 0;
    }
    if word == CALL_KIND {
        let name = word_at(heads.nodes, at.node);
        return next_for(heads, code, name, 0);
    }
    if word == EQUATION_KIND {
        return past(heads.nodes, at.node);
    }
    if word == BEHIND_KIND {
        return next_literal(at.literal);
    }
    let items = items_of_side(word);
    literal_from(at.literal, items + SIDE_ENDS)
}

/// Writes the record of an item at `at.literal`: a plain literal, or a word of a bracket.
pub fn put_item(table: &[u32], heads: Heads, code: &mut [u32], at: Places)
    requires { (m : Meant) × ((x : Item) × ItemTo m x table.now heads code.old at) }
    ensures { (m : Meant) (x : Item) → ItemTo m x table.now heads.entry code.old at
        → code.new ≡ put_record code.old at.literal (kind_of x) at.node (other_of m.ss m.sh at.node at.literal x) }
{
    let kind = kind_of(table, at.read);
    let other = other_of(table, heads, code, at);
    put_record(code, at.literal, kind, at.node, other);
}
