// What is known ground of terms in a node table: each function on a term, which stands at `p`, and the one on a list of terms call each other, as far as the
// brackets go.
ghost use Rattle.std.specs.Prelude.{◌≡◌};
ghost use Rattle.mode_rules.specs.Modes.{open_byte, open_byte_of, ground_term, ground_terms};
ghost use Rattle.marks.specs.Tables.{TermAt, TermsAt};
ghost use Rattle.marks.specs.Answers.{groundness_of};

use crate::flags::Known;
use syntax::{FIRST_NAME, NODE_WORDS};
use words::tables::{past, word_at};

/// The ground test of a term: the byte of the first variable in it that is not known ground, or none where the term is ground.
#[cycle(ground_test_ground_test_all)]
pub fn ground_test(table: &[u32], p: usize, known: Known) -> Option<usize>
    requires { TermAt table.now p }
    ensures { (w : TermAt table.now p) → result ≡ groundness_of (open_byte known w.term) }
{
    let v = word_at(table, p);
    if v < FIRST_NAME {
        if known[v] {
            return None;
        }
        let byte = word_at(table, p + 2);
        return Some(byte);
    }
    let from = p + NODE_WORDS;
    let stop = past(table, p);
    ground_test_all(table, from, stop, known)
}

// The ground test of all terms from `p` to `stop`, from left to right.
#[cycle(ground_test_ground_test_all)]
fn ground_test_all(table: &[u32], p: usize, stop: usize, known: Known) -> Option<usize>
    requires { TermsAt table.now p stop }
    ensures { (w : TermsAt table.now p stop) → result ≡ groundness_of (open_byte_of known w.terms) }
{
    if stop <= p {
        return None;
    }
    let first = ground_test(table, p, known);
    match first {
        Some(_) => first,
        None => {
            let next = past(table, p);
            ground_test_all(table, next, stop, known)
        }
    }
}

/// What is known ground once all variables of a term are.
#[cycle(ground_term_ground_terms)]
pub fn ground_term(table: &[u32], p: usize, known: Known) -> Known
    requires { TermAt table.now p }
    ensures { (w : TermAt table.now p) → result ≡ ground_term w.term known }
{
    let v = word_at(table, p);
    if v < FIRST_NAME {
        let mut after = known;
        after[v] = true;
        return after;
    }
    let from = p + NODE_WORDS;
    let stop = past(table, p);
    ground_terms(table, from, stop, known)
}

// What is known ground once all variables of the terms from `p` to `stop` are.
#[cycle(ground_term_ground_terms)]
fn ground_terms(table: &[u32], p: usize, stop: usize, known: Known) -> Known
    requires { TermsAt table.now p stop }
    ensures { (w : TermsAt table.now p stop) → result ≡ ground_terms w.terms known }
{
    if stop <= p {
        return known;
    }
    let after = ground_term(table, p, known);
    let next = past(table, p);
    ground_terms(table, next, stop, after)
}
