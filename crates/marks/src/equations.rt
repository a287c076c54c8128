// What an equation of two terms makes ground, over a node table. The terms stand at the places `p` and `q`.

ghost use Rattle.std.specs.Prelude.{◌≡◌, ◌≤◌, get_or};
ghost use Rattle.syntax.specs.Words.{first_name};
ghost use Rattle.mode_rules.specs.Modes.{is_ground, equate_variable, equate, equate_all, further, settle};
ghost use Rattle.marks.specs.Tables.{TermAt};
ghost use Rattle.marks.specs.InTables.{PairIn, PairsIn};
ghost use Rattle.marks.specs.Functors.{same_functor};

use crate::declarations::ReadText;
use crate::flags::{Known, further};
use crate::terms::{ground_term, ground_test};
use syntax::{FIRST_NAME, NODE_WORDS, VARIABLES};
use words::packing::length_of;
use words::tables::{past, word_at};
use words::texts::same_bytes;

// Whether a term is ground.
fn is_ground(table: &[u32], p: usize, known: Known) -> bool
    requires { TermAt table.now p }
    ensures { (w : TermAt table.now p) → result ≡ is_ground known w.term }
{
    ground_test(table, p, known).is_none()
}

// The effect of an equation with a variable on either side.
fn equate_variable(table: &[u32], p: usize, q: usize, known: Known) -> Known
    requires term_at { TermAt table.now p }
    requires term_at_2 { TermAt table.now q }
    ensures { (t : TermAt table.now p) (u : TermAt table.now q) → result ≡ equate_variable t.term u.term known }
{
    if is_ground(table, p, known) {
        let left = ground_term(table, p, known);
        return ground_term(table, q, left);
    }
    if is_ground(table, q, known) {
        let left = ground_term(table, p, known);
        return ground_term(table, q, left);
    }
    known
}

// Whether two terms that are no variables have the same name and number of arguments: their first words say number and length.
fn same_functor(read: ReadText<'_>, p: usize, q: usize) -> bool
    requires pair_at { PairIn read p q }
    requires first_name_bound { (first_name ≤ get_or read.table.now p 0) × (first_name ≤ get_or read.table.now q 0) }
    ensures { (w : PairIn read.entry p q) → result ≡ same_functor w.left w.right }
{
    let v = word_at(read.table, p);
    let w = word_at(read.table, q);
    let a = word_at(read.table, p + 2);
    let b = word_at(read.table, q + 2);
    v == w && same_bytes(read.text, a, read.text, b, length_of(v))
}

// One pass over an equation of two terms of the text.
#[cycle(equate_equate_all)]
fn equate(read: ReadText<'_>, p: usize, q: usize, known: Known) -> Known
    requires { PairIn read p q }
    ensures { (w : PairIn read.entry p q) → result ≡ equate w.left w.right known }
{
    if word_at(read.table, p) < FIRST_NAME {
        return equate_variable(read.table, p, q, known);
    }
    if word_at(read.table, q) < FIRST_NAME {
        return equate_variable(read.table, p, q, known);
    }
    if !same_functor(read, p, q) {
        return [true; VARIABLES];
    }
    let from = p + NODE_WORDS;
    let stop = past(read.table, p);
    let other = q + NODE_WORDS;
    equate_all(read, from, stop, other, known)
}

// One pass over the equations of two lists of as many terms, from left to right: from `p` to `stop`, and from `q` on.
#[cycle(equate_equate_all)]
fn equate_all(read: ReadText<'_>, p: usize, stop: usize, q: usize, known: Known) -> Known
    requires { PairsIn read p stop q }
    ensures { (w : PairsIn read.entry p stop q) → result ≡ equate_all w.left w.right known }
{
    if stop <= p {
        return known;
    }
    let after = equate(read, p, q, known);
    let next = past(read.table, p);
    let other = past(read.table, q);
    equate_all(read, next, stop, other, after)
}

// Passes over an equation, until one makes nothing further ground.
fn go_over(read: ReadText<'_>, p: usize, q: usize, known: Known) -> Known
    requires { PairIn read p q }
    ensures { (w : PairIn read.entry p q) → result ≡ settle w.left w.right known }
{
    let mut flags = known;
    // How many passes there are is known only from what they leave.
    loop {
        let after = equate(read, p, q, flags);
        if !further(flags, after) {
            return after;
        }
        flags = after;
    }
}

/// What is known ground after the equation of the terms at `p` and `q`, gone over until a pass makes nothing further ground. One pass does where a variable
/// is on a side.
pub fn settle(read: ReadText<'_>, p: usize, q: usize, known: Known) -> Known
    requires { PairIn read p q }
    ensures { (w : PairIn read.entry p q) → result ≡ settle w.left w.right known }
{
    if word_at(read.table, p) < FIRST_NAME {
        return equate_variable(read.table, p, q, known);
    }
    if word_at(read.table, q) < FIRST_NAME {
        return equate_variable(read.table, p, q, known);
    }
    go_over(read, p, q, known)
}
