// The nodes of terms copied one behind the other, a name by its place.
ghost use Rattle.std.specs.Prelude.{◌≡◌, ◌+◌, ◌*◌, ◌≤◌, length};
ghost use Rattle.syntax.specs.Words.{node_words, program_words, goal_words};
ghost use Rattle.run_layout.specs.Regions.{loaded_node, nodes_words};
ghost use Rattle.load.specs.Flat.{number_of, flat_words, flat_all, put_all, RunAt, body_parsed, BodyHere, clause_parsed, ClauseHere, clauses_parsed};
ghost use Rattle.load.specs.Flat.{ClausesHere};

use crate::node_words::{Source, name_word, two_of_three};
use run_layout::LOADED_NODE;
use syntax::{CLAUSE_START, NODE_WORDS};
use words::tables::{CLAUSE_ITEMS, past, past_clause, past_item, word_at};

// The nodes from one place up to another, copied to `at`; the place past the copies.
fn copy_nodes(
    table: &[u32],
    from: usize,
    stop: usize,
    source: Source,
    nodes: &mut [u32],
    at: usize,
) -> usize
    requires room { (length table.now ≤ program_words) × ((nodes_words ≤ length nodes.old)
        × (at * node_words ≤ from * loaded_node + goal_words * loaded_node)) }
    requires run_at { RunAt table.now from stop }
    ensures { (w : RunAt table.now from stop) → (nodes.new ≡ put_all nodes.old at (flat_words (flat_all (number_of source) w.run)))
        × (result ≡ at + length (flat_words (flat_all (number_of source) w.run))) }
{
    let mut q = at;
    for p in (from..stop).step_by(NODE_WORDS) {
        nodes[q] = name_word(table[p], table[p + 2], source);
        nodes[q + 1] = two_of_three(table[p + 1]);
        q += LOADED_NODE;
    }
    q
}

/// Copies the nodes of so many items to place `at` and gives the place past the copies. The words of brackets have no nodes.
pub fn copy_body(
    table: &[u32],
    from: usize,
    items: usize,
    source: Source,
    nodes: &mut [u32],
    at: usize,
) -> usize
    requires room { (length table.now ≤ program_words) × ((nodes_words ≤ length nodes.old)
        × (at * node_words ≤ from * loaded_node + goal_words * loaded_node)) }
    requires body_here { BodyHere table.now from items }
    ensures { (w : BodyHere table.now from items) → (nodes.new
        ≡ put_all nodes.old at (flat_words (flat_all (number_of source) (body_parsed w.body))))
        × (result ≡ at + length (flat_words (flat_all (number_of source) (body_parsed w.body)))) }
{
    let mut p = from;
    let mut q = at;
    for _item in 0..items {
        let first = p + 1;
        let next = past_item(table, p);
        q = copy_nodes(table, first, next, source, nodes, q);
        p = next;
    }
    q
}

// The nodes of the clause at a place: its head's, then its body's.
fn copy_clause(table: &[u32], p: usize, nodes: &mut [u32], at: usize) -> usize
    requires table_len_bound { (length table.now ≤ program_words) × ((nodes_words ≤ length nodes.old)
        × (at * node_words ≤ p * loaded_node + goal_words * loaded_node)) }
    requires clause_here { ClauseHere table.now p }
    ensures { (w : ClauseHere table.now p) → (nodes.new
        ≡ put_all nodes.old at (flat_words (flat_all 0 (clause_parsed w.clause))))
        × (result ≡ at + length (flat_words (flat_all 0 (clause_parsed w.clause)))) }
{
    let items = word_at(table, p + CLAUSE_ITEMS);
    let head = p + CLAUSE_START;
    let body = past(table, head);
    let q = copy_nodes(table, head, body, Source::Sheet, nodes, at);
    copy_body(table, body, items, Source::Sheet, nodes, q)
}

/// Copies the nodes of so many clauses to place `at` and gives the place past the copies.
pub fn copy_clauses(table: &[u32], clauses: usize, nodes: &mut [u32], at: usize) -> usize
    requires table_len_bound { (length table.now ≤ program_words) × ((nodes_words ≤ length nodes.old) × (at * node_words ≤ goal_words * loaded_node)) }
    requires clauses_here { ClausesHere table.now 0 clauses }
    ensures { (w : ClausesHere table.now 0 clauses) → (nodes.new
        ≡ put_all nodes.old at (flat_words (flat_all 0 (clauses_parsed w.list))))
        × (result ≡ at + length (flat_words (flat_all 0 (clauses_parsed w.list)))) }
{
    let mut p = 0;
    let mut q = at;
    for _clause in 0..clauses {
        q = copy_clause(table, p, nodes, q);
        p = past_clause(table, p);
    }
    q
}
