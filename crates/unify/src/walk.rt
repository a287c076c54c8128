// Two clause terms side by side. One term and a list of terms call each other, within the brackets of the clause: at most 16 brackets, each with
// at most 8 terms left, so the calls nest some 150 deep at most.
ghost use Rattle.std.specs.Prelude.{◌≡◌, ◌≤◌, false};
ghost use Rattle.run_layout.specs.Regions.{big_pairs};
ghost use Rattle.unify.specs.Walks.{Walkable, TwoNodes, WalksTerms, WalksRows, MetVariable};

use run_layout::{BIG_PAIRS, LOADED_NODE};
use syntax::FIRST_NAME;
use words::tables::{size_at, word_at};

// A term of more words is large.
const BIG: usize = 64 * LOADED_NODE;

/// Why a walk stops before the end: names differ, or at these first places a variable stands on a side, or a large term.
#[derive(Clone, Copy)]
pub enum WalkStop {
    Clash,
    Met { left: usize, right: usize },
}

// Whether a walk within the rows of a stack of height h stops at a term of so many words: a large one is opened as a pair, so that it can be remembered.
fn is_big(size: usize, h: usize) -> bool
    ensures { big_pairs ≤ h → result ≡ false }
{
    if BIG < size { h < BIG_PAIRS } else { false }
}

/// Walks the terms at p and q side by side, for a stack of height h: Ok where they are the same and have no variable.
#[cycle(unify_list_unify_term)]
pub fn unify_term(nodes: &[u32], p: usize, q: usize, h: usize) -> Result<(), WalkStop>
    requires { TwoNodes nodes.now p q }
    ensures walks { WalksTerms nodes.now p q result }
    ensures variable { MetVariable nodes.now h result }
{
    let w = word_at(nodes, p);
    let z = word_at(nodes, q);
    if w < FIRST_NAME {
        return Err(WalkStop::Met { left: p, right: q });
    }
    if z < FIRST_NAME {
        return Err(WalkStop::Met { left: p, right: q });
    }
    if w != z {
        return Err(WalkStop::Clash);
    }
    let size = size_at(nodes, p);
    if is_big(size, h) {
        return Err(WalkStop::Met { left: p, right: q });
    }
    let e = p + size;
    let i = p + LOADED_NODE;
    let j = q + LOADED_NODE;
    unify_list(nodes, i, e, j, h)
}

/// Walks the terms from p up to e, and as many from q on, as `unify_term` does.
#[cycle(unify_list_unify_term)]
pub fn unify_list(nodes: &[u32], p: usize, e: usize, q: usize, h: usize) -> Result<(), WalkStop>
    requires { Walkable nodes.now p e q }
    ensures walks { WalksRows nodes.now p e q result }
    ensures variable { MetVariable nodes.now h result }
{
    if e <= p {
        return Ok(());
    }
    unify_term(nodes, p, q, h)?;
    let i = p + size_at(nodes, p);
    let j = q + size_at(nodes, q);
    unify_list(nodes, i, e, j, h)
}

// As `unify_term`, without a call where it has no arguments or the first of them is a variable. This and `walk_rows` stand beside `unify_list` and `unify_term`
// since most walks end at once, and these decide the speed of a step: they are put into each caller, since a call would cost more than most walks.
#[inline(always)]
fn begin_term(nodes: &[u32], p: usize, q: usize, h: usize) -> Result<(), WalkStop>
    requires { TwoNodes nodes.now p q }
    ensures walks { WalksTerms nodes.now p q result }
    ensures variable { MetVariable nodes.now h result }
{
    let w = word_at(nodes, p);
    let z = word_at(nodes, q);
    if w < FIRST_NAME {
        return Err(WalkStop::Met { left: p, right: q });
    }
    if z < FIRST_NAME {
        return Err(WalkStop::Met { left: p, right: q });
    }
    if w != z {
        return Err(WalkStop::Clash);
    }
    let size = size_at(nodes, p);
    let e = p + size;
    let i = p + LOADED_NODE;
    let j = q + LOADED_NODE;
    if e <= i {
        return Ok(());
    }
    if word_at(nodes, i) < FIRST_NAME {
        return Err(WalkStop::Met { left: i, right: j });
    }
    if word_at(nodes, j) < FIRST_NAME {
        return Err(WalkStop::Met { left: i, right: j });
    }
    if is_big(size, h) {
        return Err(WalkStop::Met { left: p, right: q });
    }
    unify_list(nodes, i, e, j, h)
}

/// As `unify_list`, its first terms by `begin_term`: most walks end there.
#[inline(always)]
pub fn walk_rows(nodes: &[u32], p: usize, e: usize, q: usize, h: usize) -> Result<(), WalkStop>
    requires { Walkable nodes.now p e q }
    ensures walks { WalksRows nodes.now p e q result }
    ensures variable { MetVariable nodes.now h result }
{
    if e <= p {
        return Ok(());
    }
    // No `?`, which would copy what was found: that costs a step much.
    let begun = begin_term(nodes, p, q, h);
    if begun.is_err() {
        return begun;
    }
    let i = p + size_at(nodes, p);
    let j = q + size_at(nodes, q);
    unify_list(nodes, i, e, j, h)
}
