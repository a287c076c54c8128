// The first clause of a sheet that has a bracket.

ghost use Rattle.std.specs.Prelude.{◌≡◌, not};
ghost use Rattle.syntax.specs.Terms.{Body, Clause};
ghost use Rattle.words.specs.Items.{ItemsAt};
ghost use Rattle.machine.specs.Determinacy.{without_brackets, first_bracketed};
ghost use Rattle.syntax.specs.Words.{clause_words};
ghost use Rattle.words.specs.Tables.{WordsAt};
ghost use Rattle.determinacy.specs.Clauses.{told_number, ClausesIn};

use syntax::{CLAUSE_START, EQUATION_KIND};
use words::tables::{CLAUSE_ITEMS, past, past_clause, past_item, word_at};

// Whether a body of so many items has a bracket: the kinds of a bracket's words are greater than those of other literals.
fn has_bracket(table: &[u32], p: usize, items: usize) -> bool
    requires { (b : Body) × ItemsAt table.now p items b }
    ensures { (b : Body) → ItemsAt table.now p items b → result ≡ not (without_brackets b) }
{
    let mut at = p;
    // Items are of several lengths; each says where the next begins.
    for _ in 0..items {
        if EQUATION_KIND < word_at(table, at) {
            return true;
        }
        at = past_item(table, at);
    }
    false
}

// Whether the clause at a place has a bracket.
fn is_bracketed(table: &[u32], p: usize) -> bool
    requires { (x : Clause) × WordsAt table.now p (clause_words x) }
    ensures { (x : Clause) → WordsAt table.now p (clause_words x) → result ≡ not (without_brackets x.body) }
{
    let items = word_at(table, p + CLAUSE_ITEMS);
    let head = p + CLAUSE_START;
    let first = past(table, head);
    has_bracket(table, first, items)
}

/// The number, from 1 on, of the first of `k` clauses that has a bracket; None where none has.
pub fn bracketed_clause(table: &[u32], k: usize) -> Option<usize>
    requires { ClausesIn table.now k }
    ensures { (w : ClausesIn table.now k) → result ≡ told_number (first_bracketed 1 w.list) }
{
    let mut at = 0;
    // Clauses are of several lengths; each says where the next begins.
    for i in 0..k {
        let number = i + 1;
        if is_bracketed(table, at) {
            return Some(number);
        }
        at = past_clause(table, at);
    }
    None
}
