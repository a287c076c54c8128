// The records of a body and of a clause.

ghost use Rattle.std.specs.Prelude.{◌≡◌};
ghost use Rattle.syntax.specs.Terms.{Body, Clause};
ghost use Rattle.load.specs.Search.{Meant};
ghost use Rattle.load.specs.ClausesRecords.{put_body, behind_body, put_clause};
ghost use Rattle.load.specs.ClausesPlaces.{BodyTo, ClauseTo};

use crate::items::put_item;
use crate::next_clauses::{Heads, next_for};
use crate::records::{Places, literal_from, next_literal, nodes_of, put_pair};
use run_layout::{CLAUSE_SIZE, END_KIND};
use syntax::CLAUSE_START;
use words::tables::{CLAUSE_ITEMS, past, past_item, put, word_at};

/// Writes the records of a body of so many items and its end, from `at.literal` on.
pub fn put_body(table: &[u32], items: usize, heads: Heads, code: &mut [u32], at: Places)
    requires { (m : Meant) × ((b : Body) × BodyTo m b table.now items heads code.old at) }
    ensures { (m : Meant) (b : Body) → BodyTo m b table.now items heads.entry code.old at
        → code.new ≡ put_body m.ss m.sh at.node b code.old at.literal }
{
    let mut read = at.read;
    let mut node = at.node;
    let mut literal = at.literal;
    for _item in 0..items {
        let here = Places {
            read,
            node,
            literal,
        };
        put_item(table, heads, code, here);
        let next = past_item(table, read);
        node += nodes_of(next - read, 1);
        read = next;
        literal = next_literal(literal);
    }
    put(code, literal, END_KIND);
}

/// Writes the records of clause k's body, and in its own record where they begin and the next clause of its predicate, and gives the place behind them. The
/// head's place stands in the record already (`programs::put_heads`).
pub fn put_clause(table: &[u32], heads: Heads, code: &mut [u32], k: usize, at: Places) -> usize
    requires { (m : Meant) × ((cl : Clause) × ClauseTo m cl table.now heads code.old k at) }
    ensures { (m : Meant) (cl : Clause) → ClauseTo m cl table.now heads.entry code.old k at
        → (code.new ≡ put_clause m.ss m.sh at.node cl code.old k at.literal) × (result ≡ behind_body at.literal cl.body) }
{
    let word = word_at(heads.nodes, at.node);
    let after = next_for(heads, code, word, k);
    put_pair(code, k * CLAUSE_SIZE + 1, at.literal, after);
    let items = word_at(table, at.read + CLAUSE_ITEMS);
    let body = Places {
        read: past(table, at.read + CLAUSE_START),
        node: past(heads.nodes, at.node),
        literal: at.literal,
    };
    put_body(table, items, heads, code, body);
    let ends = literal_from(at.literal, items);
    next_literal(ends)
}
