// Short cuts through chains of variables, which hold for one unification: a cut leads from a cell to an earlier one that means the same. A slot for each cell says
// which cut is the cell's: it is the higher half of one of the memo's slots. Slots are never cleared, since a cut names its cell. A long walk leaves at each cell
// on its way a cut to the last one, so that a later walk is short; and of two variables that led to one term the later one is cut to the earlier.

ghost use Rattle.std.specs.Prelude.{IfSome, ◌≡◌, ◌<◌, ◌+◌, true, get_or, set};
ghost use Rattle.run_layout.specs.Regions.{cells, cut_count, cut_of};
ghost use Rattle.run_layout.specs.Halves.{stored};
ghost use Rattle.bindings.specs.Scratch.{Roomy};
ghost use Rattle.bindings.specs.Cuts.{Cut, CutFrom, Cutting, KnownSame, cell_at_place};
ghost use Rattle.bindings.specs.Chains.{Fronted, Followable, Next, Staged, Linked, ChainEnd, Shortenable, VariableAt, Eased};
ghost use Rattle.bindings.specs.Chains.{Followed, Both, BothFollowed, Pairable, Joined};
ghost use Rattle.run_layout.specs.State.{bindings};

use crate::store::{bound_at, held};
use run_layout::terms::At;
use run_layout::{
    CELLS, CUT_COUNT, CUT_LIST, CUTS_WORD, SLOT_COUNT, SLOTS, cell_of, half_of, with_half,
};
use syntax::FIRST_NAME;
use words::tables::word_at;

/// A term that a walk has come to, and the next one from there, if there is one.
#[derive(Clone, Copy)]
pub struct Stage {
    pub at: At,
    pub next: Option<At>,
}

/// The last variable of a chain before its end, and the end.
#[derive(Clone, Copy)]
pub struct Way {
    pub last: At,
    pub end: At,
}

/// Where two terms lead.
#[derive(Clone, Copy)]
pub struct Ends {
    pub left: At,
    pub right: At,
}

// The number of the cut of cell x.
fn cut_number(scratch: &[u32], x: usize) -> Option<usize>
    requires { Roomy scratch.now }
    ensures { IfSome result (λ j. CutFrom scratch.now x j) }
{
    let w = word_at(scratch, SLOTS + x % SLOT_COUNT);
    let j = half_of(1, w);
    if CUT_COUNT <= j || word_at(scratch, CUTS_WORD) <= j {
        return None;
    }
    let from = half_of(1, word_at(scratch, CUT_LIST + j));
    if from == x { Some(j) } else { None }
}

// A cell that means what cell x does: where x has a cut, the cell that it leads to.
fn cut_of(scratch: &[u32], x: usize) -> usize
    requires { Roomy scratch.now }
    ensures { Cut scratch.now x result }
{
    match cut_number(scratch, x) {
        Some(j) => half_of(0, word_at(scratch, CUT_LIST + j)),
        None => x,
    }
}

// The cut of number j from cell x to cell y.
fn write_cut(scratch: &mut [u32], j: usize, x: usize, y: usize)
    requires { (Roomy scratch.old) × ((j < cut_count) × ((x < cells) × (y < cells))) }
    ensures { scratch.new ≡ set scratch.old (cut_of j) (stored 1 y x) }
{
    scratch[CUT_LIST + j] = with_half(1, y, x);
}

// A cut more, from cell x to cell y. Where there is no room left, the cuts begin anew.
fn add_cut(scratch: &mut [u32], x: usize, y: usize)
    requires { (Roomy scratch.old) × ((x < cells) × (y < cells)) }
    ensures { Cutting scratch.old scratch.new x y }
{
    let k = word_at(scratch, CUTS_WORD);
    if CUT_COUNT <= k {
        scratch[CUTS_WORD] = 0;
        return;
    }
    let slot = SLOTS + x % SLOT_COUNT;
    let w = word_at(scratch, slot);
    write_cut(scratch, k, x, y);
    scratch[slot] = with_half(1, w, k);
    scratch[CUTS_WORD] = (k + 1) as u32;
}

// The cut of cell x, to cell y.
fn put_cut(scratch: &mut [u32], x: usize, y: usize)
    requires { (Roomy scratch.old) × ((x < cells) × (y < cells)) }
    ensures { Cutting scratch.old scratch.new x y }
{
    match cut_number(scratch, x) {
        Some(j) => write_cut(scratch, j, x, y),
        None => add_cut(scratch, x, y),
    }
}

// Where a term leads on to, by a cut where there is one.
fn next_from(nodes: &[u32], front: &[u32], scratch: &[u32], at: At) -> Option<At>
    requires { Followable nodes.now front.now scratch.now at.node at.copy }
    ensures { (g : Followable nodes.now front.now scratch.now at.node at.copy)
        → Next g.from.given.known g.from.given.ss nodes.now g.from.state g.from.given.n at.node at.copy result }
{
    let v = word_at(nodes, at.node);
    if FIRST_NAME <= v {
        return None;
    }
    let x = cell_of(at.copy, v);
    let w = word_at(front, x);
    let y = cut_of(scratch, x);
    if x <= y {
        return held(w);
    }
    held(word_at(front, y)).or(held(w))
}

// The cell of the variable at a place.
fn variable_cell(nodes: &[u32], at: At) -> usize
    requires { VariableAt nodes.now at }
    ensures { result ≡ cell_at_place nodes.now at }
{
    let v = word_at(nodes, at.node);
    cell_of(at.copy, v)
}

// Where a chain ends that leads from one term on to another.
fn way_on(nodes: &[u32], front: &[u32], scratch: &[u32], from: At, next: At) -> Way
    requires { Linked nodes.now front.now scratch.now from next }
    ensures { (g : Linked nodes.now front.now scratch.now from next) → ChainEnd g.start.from.given.known g.start.from.given.ss nodes.now g.start.from.state
        g.start.from.given.n from result }
{
    let mut last = from;
    let mut at = next;
    // How many links a chain has is known only at its end.
    while let Some(there) = next_from(nodes, front, scratch, at) {
        last = at;
        at = there;
    }
    Way { last, end: at }
}

// Cuts from the variables of a chain, up to the last, to that one.
fn shorten(nodes: &[u32], front: &[u32], scratch: &mut [u32], from: At, last: At)
    requires { Shortenable nodes.now front.now scratch.old from last }
    ensures { (g : Shortenable nodes.now front.now scratch.old from last) → Eased g.start.from.given.known (bindings g.start.from.given.ss nodes.now
        g.start.from.state g.start.from.given.n) scratch.old scratch.new }
{
    let y = variable_cell(nodes, last);
    let mut at = from;
    while let Some(next) = next_from(nodes, front, scratch, at) {
        let x = variable_cell(nodes, at);
        if y >= x {
            return;
        }
        put_cut(scratch, x, y);
        at = next;
    }
}

// Where a term leads: to a name, or to an unbound variable. The variables on the way have cuts then.
fn walk_on(nodes: &[u32], front: &[u32], scratch: &mut [u32], from: At) -> At
    requires { Followable nodes.now front.now scratch.old from.node from.copy }
    ensures { (g : Followable nodes.now front.now scratch.old from.node from.copy) → Followed g scratch.new result }
{
    let Some(next) = next_from(nodes, front, scratch, from) else {
        return from;
    };
    let way = way_on(nodes, front, scratch, from, next);
    shorten(nodes, front, scratch, from, way.last);
    way.end
}

// At most two links from a term on: most chains end there.
fn lead(nodes: &[u32], front: &[u32], from: At) -> Stage
    requires { Fronted nodes.now front.now from.node from.copy }
    ensures { (g : Fronted nodes.now front.now from.node from.copy)
        → Staged g.given.known g.given.ss nodes.now g.state g.given.n from.node from.copy result }
{
    let Some(first) = bound_at(nodes, front, from) else {
        return Stage {
            at: from,
            next: None,
        };
    };
    let Some(at) = bound_at(nodes, front, first) else {
        return Stage {
            at: first,
            next: None,
        };
    };
    let next = bound_at(nodes, front, at);
    Stage { at, next }
}

// As `follow`, for terms that may be far from there.
fn follow_far(nodes: &[u32], front: &[u32], scratch: &mut [u32], p: At, q: At) -> Ends
    requires { Both nodes.now front.now scratch.old p q }
    ensures { (g : Both nodes.now front.now scratch.old p q) → BothFollowed g scratch.new result }
{
    let left = walk_on(nodes, front, scratch, p);
    let right = walk_on(nodes, front, scratch, q);
    Ends { left, right }
}

// The same. Of the state only the cells are handed on, whose number is known: its length is then needed nowhere, and costs a step nothing.
fn follow_on(nodes: &[u32], state: &[u32], scratch: &mut [u32], p: At, q: At) -> Ends
    requires { Both nodes.now state.now scratch.old p q }
    ensures { (g : Both nodes.now state.now scratch.old p q) → BothFollowed g scratch.new result }
{
    let front = &state[..CELLS];
    follow_far(nodes, front, scratch, p, q)
}

// Where two variables led to one term, a cut from the later to the earlier.
fn join(nodes: &[u32], scratch: &mut [u32], p: At, q: At, e: Ends)
    requires { Pairable nodes.now scratch.old p q }
    ensures { Joined nodes.now scratch.old scratch.new p q e }
{
    let w = word_at(nodes, p.node);
    let z = word_at(nodes, q.node);
    if FIRST_NAME <= w || FIRST_NAME <= z {
        return;
    }
    if e.left.node != e.right.node || e.left.copy != e.right.copy {
        return;
    }
    let x = cell_of(p.copy, w);
    let y = cell_of(q.copy, z);
    if x < y {
        put_cut(scratch, y, x);
    } else {
        put_cut(scratch, x, y);
    }
}

/// Where two terms lead, each to a name or to an unbound variable.
pub fn follow(nodes: &[u32], state: &[u32], scratch: &mut [u32], p: At, q: At) -> Ends
    requires { Both nodes.now state.now scratch.old p q }
    ensures { (g : Both nodes.now state.now scratch.old p q) → BothFollowed g scratch.new result }
{
    let l = lead(nodes, state, p);
    let r = lead(nodes, state, q);
    if l.next.is_none() && r.next.is_none() {
        return Ends {
            left: l.at,
            right: r.at,
        };
    }
    let e = follow_on(nodes, state, scratch, l.at, r.at);
    join(nodes, scratch, p, q, e);
    e
}

/// Whether two terms are variables that the cuts show to mean the same.
pub fn is_same(nodes: &[u32], scratch: &[u32], p: At, q: At) -> bool
    requires { Pairable nodes.now scratch.now p q }
    ensures { result ≡ true → KnownSame nodes.now scratch.now p q }
{
    let w = word_at(nodes, p.node);
    let z = word_at(nodes, q.node);
    if FIRST_NAME <= w || FIRST_NAME <= z {
        return false;
    }
    let x = cell_of(p.copy, w);
    let y = cell_of(q.copy, z);
    if x < y {
        cut_of(scratch, y) == x
    } else {
        x == y || cut_of(scratch, x) == y
    }
}
