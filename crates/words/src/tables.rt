// Words of a table: reading one, storing one, and the places past a node, an item, a body and a clause.

ghost use Rattle.std.specs.Prelude.{◌≡◌, ◌+◌, ◌*◌, ◌≤◌, ◌<◌, ◌^◌, length, get_or, set, slice_index};
ghost use Rattle.syntax.specs.Terms.{Body, Clause};
ghost use Rattle.syntax.specs.Words.{body_words, clause_words, declaration_size};
ghost use Rattle.words.specs.Tables.{WordsAt, NodeInTable, entry_from};
ghost use Rattle.words.specs.Items.{Item, item_words, ItemsAt};

use syntax::{CALL_KIND, DECLARATION_SIZE, EQUATION_KIND, Entry};

/// Where the number of items stands among a clause's words: behind its length and its number of variables.
pub const CLAUSE_ITEMS: usize = 2;

/// The word at a place of a table.
pub fn word_at(table: &[u32], p: usize) -> usize
    requires { p < length table.now }
    ensures { result ≡ get_or table.now p 0 }
{
    table[p] as usize
}

/// Stores a word at a place of a table.
pub fn put(table: &mut [u32], p: usize, w: usize)
    requires { (p < length table.old) × (w < 2 ^ 32) }
    ensures { table.new ≡ set table.old p w }
{
    table[p] = w as u32;
}

/// Stores three words, one behind the other: those of a node or a row, or the first of a clause or a declaration.
pub fn put_three(table: &mut [u32], p: usize, first: usize, second: usize, third: usize)
    requires { (p + 3 ≤ length table.old) × ((first < 2 ^ 32) × ((second < 2 ^ 32) × (third < 2 ^ 32))) }
    ensures { table.new ≡ set (set (set table.old p first) (p + 1) second) (p + 2) third }
{
    put(table, p, first);
    put(table, p + 1, second);
    put(table, p + 2, third);
}

/// How many words a node takes with its arguments, whether it is as read or loaded: its second word.
pub fn size_at(table: &[u32], p: usize) -> usize
    requires { p + 1 < length table.now }
    ensures { result ≡ slice_index table.now (p + 1) }
{
    word_at(table, p + 1)
}

/// The place past a node and its arguments: its second word is how many words they take, whether the node is as read or loaded.
pub fn past(table: &[u32], p: usize) -> usize
    requires { NodeInTable table.now p }
    ensures { result ≡ p + get_or table.now (p + 1) 0 }
{
    p + size_at(table, p)
}

/// The place past an item as read: a literal that is no bracket, or one word of a bracket. Truth and falsehood have kinds below a call's, an equation the
/// one above it, and the words of a bracket are greater.
pub fn past_item(table: &[u32], p: usize) -> usize
    requires { (x : Item) × WordsAt table.now p (item_words x) }
    ensures { (x : Item) → WordsAt table.now p (item_words x) → result ≡ p + length (item_words x) }
{
    let word = word_at(table, p);
    let q = p + 1;
    if word < CALL_KIND {
        return q;
    }
    if EQUATION_KIND < word {
        return q;
    }
    let next = past(table, q);
    if word == CALL_KIND {
        return next;
    }
    past(table, next)
}

/// The place past a body of so many items.
pub fn past_body(table: &[u32], p: usize, items: usize) -> usize
    requires { (b : Body) × ItemsAt table.now p items b }
    ensures { (b : Body) → ItemsAt table.now p items b → result ≡ p + length (body_words b) }
{
    let mut at = p;
    for _ in 0..items {
        at = past_item(table, at);
    }
    at
}

/// The place past a clause as read: its first word is how many words it takes.
pub fn past_clause(table: &[u32], p: usize) -> usize
    requires { (x : Clause) × WordsAt table.now p (clause_words x) }
    ensures { (x : Clause) → WordsAt table.now p (clause_words x) → result ≡ p + length (clause_words x) }
{
    let size = word_at(table, p);
    p + size
}

/// The i-th declaration, from 0 on, of those whose words stand from the beginning of a table.
pub fn entry_at(declared: &[u32], i: usize) -> Entry
    requires { declaration_size * (i + 1) ≤ length declared.now }
    ensures { result ≡ entry_from declared.now i }
{
    let p = DECLARATION_SIZE * i;
    let at = word_at(declared, p);
    let len = word_at(declared, p + 1);
    let arguments = word_at(declared, p + 2);
    Entry { at, len, arguments }
}
