// Records of the code, the table of clauses and bodies: where they stand, how they are written, and how many words the nodes that they name take.

ghost use Rattle.std.specs.Prelude.{◌≡◌, ℕ, ◌+◌, ◌*◌, ◌≤◌, ◌<◌, ◌^◌, length};
ghost use Rattle.syntax.specs.Words.{node_words};
ghost use Rattle.run_layout.specs.Regions.{loaded_node, places, next_literal, literal_from};
ghost use Rattle.load.specs.Records.{side_ends, put_pair, put_record};

use run_layout::{LITERAL_SIZE, LOADED_NODE};
use syntax::NODE_WORDS;
use words::tables::{put, put_three};

/// Where a part of a program stands: its words as read from `read` on, its loaded nodes from `node` on, its records from `literal` on.
#[derive(Clone, Copy)]
pub struct Places {
    pub read: usize,
    pub node: usize,
    pub literal: usize,
}

/// What a program was compiled to: the nodes of its terms, and the code of its clauses and goal. It is only read; state and scratch words are written and go
/// beside it.
#[derive(Clone, Copy)]
pub struct Compiled<'a> {
    pub nodes: &'a [u32],
    pub code: &'a [u32],
}

/// How many words some nodes take once they are loaded, by how many they take as read. `words` is the number of words as read, `others` the number of those
/// that belong to no node: an item's first word, the words of a clause before its head.
pub fn nodes_of(words: usize, others: usize) -> usize
    requires { others ≤ words }
    ensures { (n : ℕ) → n * node_words + others * loaded_node ≡ words * loaded_node → result ≡ n }
{
    (words - others) / NODE_WORDS * LOADED_NODE
}

/// The place of the record behind the one at l.
pub fn next_literal(l: usize) -> usize
    requires { l < 2 ^ 32 }
    ensures { result ≡ next_literal l }
{
    l + LITERAL_SIZE
}

/// The place of record i, counted from the one at l, which is number 0.
pub fn literal_from(l: usize, i: usize) -> usize
    requires { (l ≤ places) × (i ≤ places + side_ends) }
    ensures { result ≡ literal_from l i }
{
    l + i * LITERAL_SIZE
}

/// Writes two words at p, one behind the other.
pub fn put_pair(code: &mut [u32], p: usize, a: usize, b: usize)
    requires { (p + 1 < length code.old) × ((a < 2 ^ 32) × (b < 2 ^ 32)) }
    ensures { code.new ≡ put_pair code.old p a b }
{
    put(code, p, a);
    put(code, p + 1, b);
}

/// Writes a record of a body at l: its kind (`syntax`'s or `run_layout`'s) and its two words.
pub fn put_record(code: &mut [u32], l: usize, kind: usize, place: usize, other: usize)
    requires { (l + 2 < length code.old) × ((kind < 2 ^ 32) × ((place < 2 ^ 32) × (other < 2 ^ 32))) }
    ensures { code.new ≡ put_record code.old l kind place other }
{
    put_three(code, l, kind, place, other);
}
