// Linking: a record for each clause and each item of a body, with the next clauses to be tried.

ghost use Rattle.std.specs.Prelude.{◌≡◌, List, length};
ghost use Rattle.syntax.specs.Terms.{Clause};
ghost use Rattle.syntax.specs.Words.{clause_words};
ghost use Rattle.words.specs.Tables.{WordsAt};
ghost use Rattle.run_layout.specs.Nodes.{Symbol};
ghost use Rattle.run_layout.specs.Program.{clause_nodes, Program};
ghost use Rattle.load.specs.Search.{Meant};
ghost use Rattle.load.specs.ProgramsRecords.{put_heads, put_clauses};
ghost use Rattle.load.specs.ProgramsPlaces.{HeadsTo, ClausesTo, first_clause};
ghost use Rattle.run_layout.specs.Regions.{clause_bodies};
ghost use Rattle.load.specs.Linking.{Linkable};

use crate::clauses::{put_body, put_clause};
use crate::next_clauses::Heads;
use crate::node_words::{ReadGoal, ReadSheet};
use crate::records::{Places, nodes_of, put_pair};
use run_layout::{BODIES, CLAUSE_BODIES, CLAUSE_SIZE};
use syntax::CLAUSE_START;
use words::tables::{CLAUSE_ITEMS, past_body, past_clause, put, word_at};

// How many words the loaded nodes of the clause at p take.
fn clause_nodes(table: &[u32], p: usize) -> usize
    requires { (cl : Clause) × WordsAt table.now p (clause_words cl) }
    ensures { (ss : List Symbol) (cl : Clause) → WordsAt table.now p (clause_words cl) → result ≡ length (clause_nodes ss cl) }
{
    let size = word_at(table, p);
    let items = word_at(table, p + CLAUSE_ITEMS);
    nodes_of(size, items + CLAUSE_START)
}

/// Writes the places of the heads into the records of the clauses, whose nodes stand from q on.
pub fn put_heads(table: &[u32], clauses: usize, q: usize, code: &mut [u32])
    requires { (ss : List Symbol) × ((cls : List Clause) × HeadsTo ss cls table.now 0 q clauses code.old 1) }
    ensures { (ss : List Symbol) (cls : List Clause) → HeadsTo ss cls table.now 0 q clauses code.old 1 → code.new
        ≡ put_heads ss q cls code.old 1 }
{
    let mut at = 0;
    let mut node = q;
    for k in 1..=clauses {
        put(code, k * CLAUSE_SIZE, node);
        node += clause_nodes(table, at);
        at = past_clause(table, at);
    }
}

/// Writes the other words of the clauses' records and the records of their bodies, one body behind the other. All heads have their places by then, since the
/// next clause of a predicate is found by its head.
pub fn put_clauses(table: &[u32], heads: Heads, q: usize, code: &mut [u32])
    requires { (m : Meant) × ((cls : List Clause) × ClausesTo m cls table.now heads code.old 1 (first_clause q)) }
    ensures { (m : Meant) (cls : List Clause) → ClausesTo m cls table.now heads.entry code.old 1 (first_clause q)
        → code.new ≡ put_clauses m.ss m.sh q cls code.old 1 clause_bodies }
{
    let mut read = 0;
    let mut node = q;
    let mut literal = CLAUSE_BODIES;
    for k in 1..=heads.clauses {
        let here = Places {
            read,
            node,
            literal,
        };
        literal = put_clause(table, heads, code, k, here);
        node += clause_nodes(table, read);
        read = past_clause(table, read);
    }
}

/// Writes the records of a goal and of a sheet's clauses whose nodes are loaded: the goal's nodes come first, then those of the clauses in their order.
pub fn link(sheet: ReadSheet, goal: ReadGoal, nodes: &[u32], code: &mut [u32])
    requires { Linkable sheet.table.now sheet.clauses goal.table.now goal.literals nodes.now code.old }
    ensures { (w : Linkable sheet.entry.table.now sheet.entry.clauses goal.entry.table.now goal.entry.literals nodes.now code.old)
        → Program w.ss w.sh w.g nodes.now code.new }
{
    let stop = past_body(goal.table, 0, goal.literals);
    let node = nodes_of(stop, goal.literals);
    put_heads(sheet.table, sheet.clauses, node, code);
    put_pair(code, 1, BODIES, 0);
    let heads = Heads {
        nodes,
        clauses: sheet.clauses,
    };
    let first = Places {
        read: 0,
        node: 0,
        literal: BODIES,
    };
    put_body(goal.table, goal.literals, heads, code, first);
    put_clauses(sheet.table, heads, node, code);
}
