// Unification: the outer loop, which takes over where a variable stands on a side, bound or not.
ghost use Rattle.std.specs.Prelude.{◌≡◌, ◌+◌, ◌≤◌, ◌<◌, ◌^◌, true, false, Ok, Err, List, ℕ, set};
ghost use Rattle.run_layout.specs.Regions.{cells, pending, loaded_node};
ghost use Rattle.bindings.specs.Cells.{Stored, Undone};
ghost use Rattle.bindings.specs.Scratch.{Roomy};
ghost use Rattle.bindings.specs.Cuts.{KnownSame};
ghost use Rattle.bindings.specs.Chains.{Pairable};
ghost use Rattle.bindings.specs.Plain.{Closed};
ghost use Rattle.unify.specs.declared.solve.TurnStop.TheVariants.{Bind};
ghost use Rattle.unify.specs.Turns.{Crossed, Crossable, Crosses, PairTurned, Meetable, Turnable, TurnGives, Openable, Passable, moved_to};
ghost use Rattle.unify.specs.Shapes.{SafeTurnable, SafeMeetable, SafePassable, SafeCrossable, SafeCrossed, SafeOpenable, TurnFalls, PairFalls, NoMoreLeft, TopPair};
ghost use Rattle.unify.specs.Turns.{Solvable, Solved};
ghost use Rattle.unify.specs.Cycles.{Testable, Looked};
ghost use Rattle.unify.specs.Turns.{Unifiable, UnifyGives};
ghost use Rattle.unify.specs.Stacks.{only_row, inner_row};

use crate::cycles::{CycleSearch, closes_none, find_cycle, is_cyclic};
use crate::walk::{WalkStop, walk_rows};
use bindings::memos::{forget, known, remember};
use bindings::occurrence::closed_to;
use bindings::shortcuts::{follow, is_same};
use bindings::stack::{Side, put_pair, side_at};
use bindings::store::{bind, undo};
use run_layout::terms::{At, pack};
use run_layout::{
    BIG_PAIRS, CUTS_WORD, LOADED_NODE, PAIR_SIZE, PAIRS, PENDING, SIDE_SIZE, STACK, cell_of,
};
use syntax::FIRST_NAME;
use words::tables::{put, size_at, word_at};

// The turns after which it is first looked whether bindings close a cycle.
const FIRST_TURNS: usize = 4;

// The words of terms that such a look goes over at most, for each turn since the last one: so that looks take no longer than turns.
const WORDS_A_TURN: usize = 32;

// What a turn counts besides for each `BIG_PAIRS` pairs on the stack: there large terms are no pairs of their own, and it may walk through them.
const HIGH_TURN: usize = 16;

// The most turns between two such looks.
const MOST_TURNS: usize = 1073741824;

/// Why turns do not go on: names that differ, or the variable of a cell that is to be bound to a term, with so many pairs on the stack.
#[derive(Clone, Copy)]
pub enum TurnStop {
    Clash,
    Bind {
        height: usize,
        cell: usize,
        term: At,
    },
}

/// Whether the two became equal, and the length of the trail.
#[derive(Clone, Copy)]
pub struct UnifyAnswer {
    pub equal: bool,
    pub trail: usize,
}

// A term as a row of its own.
fn only_row(p: At) -> Side
    ensures { result ≡ only_row p }
{
    Side {
        root: p.node,
        at: p.node,
        copy: p.copy,
    }
}

// The row of a term's arguments.
fn inner_row(p: At) -> Side
    requires { p.node + loaded_node < 2 ^ 64 }
    ensures { result ≡ inner_row p }
{
    Side {
        root: p.node,
        at: p.node + LOADED_NODE,
        copy: p.copy,
    }
}

// Two dereferenced terms of one name before the rows of a stack of height h. Where they are one term, or known to be equal, there is nothing to do;
// else their arguments are looked at next. While no cycle is closed there is room for them, so without room there is no unifier.
fn open_pair(scratch: &mut [u32], h: usize, p: At, q: At) -> Result<usize, TurnStop>
    requires { SafeOpenable scratch.old h p q }
    ensures means { (g : Openable scratch.old h p q) → PairTurned g.crossed scratch.new result }
    ensures safe { (s : SafeOpenable scratch.old h p q) → PairFalls s.crossed.work scratch.new result }
{
    let left = pack(p);
    let right = pack(q);
    if left == right {
        return Ok(h);
    }
    if known(scratch, left, right) {
        return Ok(h);
    }
    if PAIRS <= h {
        return Err(TurnStop::Clash);
    }
    put_pair(scratch, h, inner_row(p), inner_row(q));
    Ok(h + 1)
}

// The variable of cell x is to be bound to a term.
fn bind_to(h: usize, x: usize, term: At) -> Result<usize, TurnStop>
    ensures { result ≡ Err (Bind h x term) }
{
    Err(TurnStop::Bind {
        height: h,
        cell: x,
        term,
    })
}

// Two dereferenced terms before the rows of a stack of height h. Of two variables the later is bound to the earlier.
fn decide(nodes: &[u32], scratch: &mut [u32], h: usize, p: At, q: At) -> Result<usize, TurnStop>
    requires { SafeCrossed nodes.now scratch.old h p q }
    ensures means { (g : Crossed nodes.now scratch.old h p q) → PairTurned g scratch.new result }
    ensures safe { (s : SafeCrossed nodes.now scratch.old h p q) → PairFalls s.work scratch.new result }
{
    let w = word_at(nodes, p.node);
    let z = word_at(nodes, q.node);
    if w < FIRST_NAME {
        let x = cell_of(p.copy, w);
        if z < FIRST_NAME {
            let y = cell_of(q.copy, z);
            if x == y {
                return Ok(h);
            }
            if x < y {
                return bind_to(h, y, p);
            }
            return bind_to(h, x, q);
        }
        return bind_to(h, x, q);
    }
    if z < FIRST_NAME {
        let v = cell_of(q.copy, z);
        return bind_to(h, v, p);
    }
    if w != z {
        return Err(TurnStop::Clash);
    }
    open_pair(scratch, h, p, q)
}

// Two terms before the rows of a stack of height h, a variable on a side: they are dereferenced.
fn cross(
    nodes: &[u32],
    state: &[u32],
    scratch: &mut [u32],
    h: usize,
    p: At,
    q: At,
) -> Result<usize, TurnStop>
    requires { SafeCrossable nodes.now state.now scratch.old h p q }
    ensures means { (g : Crossable nodes.now state.now scratch.old h p q) → Crosses g scratch.new result }
    ensures safe { (s : SafeCrossable nodes.now state.now scratch.old h p q) → PairFalls s.work scratch.new result }
{
    let e = follow(nodes, state, scratch, p, q);
    decide(nodes, scratch, h, e.left, e.right)
}

// The places that the rows of the top pair are moved on to.
#[derive(Clone, Copy)]
struct Places {
    left: usize,
    right: usize,
}

// The places in the top pair's rows, l and r, behind the last two variables that are known to mean the same, where all before is the same too.
fn past_same(nodes: &[u32], scratch: &[u32], h: usize, l: Side, r: Side) -> Places
    requires { TopPair nodes.now scratch.now h l r }
    ensures means { (state : List ℕ) (g : Turnable nodes.now state scratch.now h)
        → TurnGives g.work (moved_to scratch.now h result.left result.right) (Ok h) }
    ensures safe { (state : List ℕ) (s : SafeTurnable nodes.now state scratch.now h)
        → NoMoreLeft s.work (moved_to scratch.now h result.left result.right) (Ok h) }
{
    let e = l.root + size_at(nodes, l.root);
    let mut i = l.at;
    let mut j = r.at;
    // How many there are is known only at the end.
    while let Err(WalkStop::Met { left, right }) = walk_rows(nodes, i, e, j, h) {
        let p = At {
            node: left,
            copy: l.copy,
        };
        let q = At {
            node: right,
            copy: r.copy,
        };
        if !is_same(nodes, scratch, p, q) {
            return Places { left: i, right: j };
        }
        i = left + LOADED_NODE;
        j = right + LOADED_NODE;
    }
    Places { left: i, right: j }
}

// The rows of the top pair of a stack of height h moved past variables that are known to mean the same. Not inlined, nor is `look`: both are rare, and within
// the loop of turns they would slow it down.
#[inline(never)]
fn pass_same(nodes: &[u32], scratch: &mut [u32], h: usize)
    requires { (state : List ℕ) × SafeTurnable nodes.now state scratch.old h }
    ensures means { (state : List ℕ) (g : Turnable nodes.now state scratch.old h) → TurnGives g.work scratch.new (Ok h) }
    ensures safe { (state : List ℕ) (s : SafeTurnable nodes.now state scratch.old h) → NoMoreLeft s.work scratch.new (Ok h) }
{
    let base = STACK + (h - 1) * PAIR_SIZE;
    let l = side_at(scratch, base);
    let r = side_at(scratch, base + SIDE_SIZE);
    let to = past_same(nodes, scratch, h, l, r);
    put_pair(
        scratch,
        h - 1,
        Side { at: to.left, ..l },
        Side { at: to.right, ..r },
    );
}

// Whether short cuts were made that show two terms to be variables that mean the same.
fn is_known(nodes: &[u32], scratch: &[u32], p: At, q: At) -> bool
    requires { Pairable nodes.now scratch.now p q }
    ensures { result ≡ true → KnownSame nodes.now scratch.now p q }
{
    word_at(scratch, CUTS_WORD) != 0 && is_same(nodes, scratch, p, q)
}

// The top pair, its rows l and r where they first have a variable on a side: moved past these two terms, which are then looked at. Where they are known to mean
// the same, a walk was long, and more of them may follow: the rows are moved past these too.
fn meet(
    nodes: &[u32],
    state: &[u32],
    scratch: &mut [u32],
    h: usize,
    l: Side,
    r: Side,
) -> Result<usize, TurnStop>
    requires { SafeMeetable nodes.now state.now scratch.old h l r }
    ensures means { (g : Meetable nodes.now state.now scratch.old h l r) → TurnGives g.work scratch.new result }
    ensures safe { (s : SafeMeetable nodes.now state.now scratch.old h l r) → TurnFalls s.work scratch.new result }
{
    let i = l.at + size_at(nodes, l.at);
    let j = r.at + size_at(nodes, r.at);
    put_pair(scratch, h - 1, Side { at: i, ..l }, Side { at: j, ..r });
    let p = At {
        node: l.at,
        copy: l.copy,
    };
    let q = At {
        node: r.at,
        copy: r.copy,
    };
    if is_known(nodes, scratch, p, q) {
        pass_same(nodes, scratch, h);
        return Ok(h);
    }
    cross(nodes, state, scratch, h, p, q)
}

// The top pair's rows are done: its two terms, the left one of so many words, are equal from now on. Where no pair is left, this is not remembered.
fn pass(scratch: &mut [u32], h: usize, size: usize, l: Side, r: Side) -> Result<usize, TurnStop>
    requires { SafePassable scratch.old h l r }
    ensures means { (g : Passable scratch.old h l r) → TurnGives g.work scratch.new result }
    ensures safe { (s : SafePassable scratch.old h l r) → TurnFalls s.work scratch.new result }
{
    if h == 1 {
        return Ok(0);
    }
    let left = pack(At {
        node: l.root,
        copy: l.copy,
    });
    let right = pack(At {
        node: r.root,
        copy: r.copy,
    });
    remember(scratch, h, size, left, right);
    Ok(h - 1)
}

// One turn at the top of a stack of height h.
fn next_turn(nodes: &[u32], state: &[u32], scratch: &mut [u32], h: usize) -> Result<usize, TurnStop>
    requires { SafeTurnable nodes.now state.now scratch.old h }
    ensures means { (g : Turnable nodes.now state.now scratch.old h) → TurnGives g.work scratch.new result }
    ensures safe { (s : SafeTurnable nodes.now state.now scratch.old h) → TurnFalls s.work scratch.new result }
{
    let base = STACK + (h - 1) * PAIR_SIZE;
    let l = side_at(scratch, base);
    let r = side_at(scratch, base + SIDE_SIZE);
    let size = size_at(nodes, l.root);
    let e = l.root + size;
    let found = walk_rows(nodes, l.at, e, r.at, h);
    match found {
        Ok(()) => pass(scratch, h, size, l, r),
        Err(WalkStop::Clash) => Err(TurnStop::Clash),
        Err(WalkStop::Met { left, right }) => meet(
            nodes,
            state,
            scratch,
            h,
            Side { at: left, ..l },
            Side { at: right, ..r },
        ),
    }
}

// A cell that is to be bound becomes a pending one, of which there are so many, unless it is plain that it closes no cycle. How many there are then.
fn note_pending(scratch: &mut [u32], count: usize, x: usize, plain: bool) -> usize
    requires { (Roomy scratch.old) × ((count < cells) × (x < cells)) }
    ensures passed { plain ≡ true → (scratch.new ≡ scratch.old) × (result ≡ count) }
    ensures noted { plain ≡ false → (scratch.new ≡ set scratch.old (pending + count) x) × (result ≡ count + 1) }
{
    if plain {
        return count;
    }
    put(scratch, PENDING + count, x);
    count + 1
}

// The turns after which it is looked again whether bindings close a cycle: twice as many as the last time.
fn doubled(turns: usize) -> usize
    ensures { 1 ≤ turns → 1 ≤ result }
{
    if MOST_TURNS <= turns {
        MOST_TURNS
    } else {
        2 * turns
    }
}

// The turns that are left until the next look, after one at a stack of height h: they are counted while cells are pending.
fn after_turn(left: usize, pending: usize, h: usize) -> usize {
    if pending == 0 {
        return left;
    }
    left.saturating_sub(1 + h / BIG_PAIRS * HIGH_TURN)
}

// A look, over so many words of terms at most, at whether one of so many pending cells reaches a cycle: none where it does, else how many cells are pending then.
// Short cuts and memo are forgotten.
#[inline(never)]
fn look(
    nodes: &[u32],
    state: &[u32],
    scratch: &mut [u32],
    pending: usize,
    words: usize,
) -> Option<usize>
    requires { Testable nodes.now state.now scratch.old pending }
    ensures { (g : Testable nodes.now state.now scratch.old pending) → Looked g scratch.new result }
{
    let found = find_cycle(nodes, state, scratch, pending, Some(words));
    forget(scratch);
    match found {
        CycleSearch::Cycle => None,
        CycleSearch::NoCycle => Some(0),
        CycleSearch::GivenUp => Some(pending),
    }
}

// No unifier: the bindings from the n-th on are undone.
fn fail(state: &mut [u32], n: usize, trail: usize) -> UnifyAnswer
    requires stored { Stored state.old trail }
    requires low { n ≤ trail }
    ensures undone { Undone state.old state.new n trail }
    ensures is { result ≡ record { equal = false; trail = n } }
{
    undo(state, n, trail);
    UnifyAnswer {
        equal: false,
        trail: n,
    }
}

// The one pair on the stack, with n bindings, the copies below k closed: turns, and a binding where they ask for one.
fn solve_pair(
    nodes: &[u32],
    state: &mut [u32],
    scratch: &mut [u32],
    n: usize,
    k: usize,
) -> UnifyAnswer
    requires solvable { Solvable nodes.now state.old scratch.old n }
    requires closed { Closed k state.old }
    ensures { (g : Solvable nodes.now state.old scratch.old n) → Solved g state.new scratch.new result }
{
    let mut trail = n;
    let mut h = 1;
    let mut closed = k;
    let mut count = 0;
    let mut turns = FIRST_TURNS;
    let mut left = FIRST_TURNS;
    // How many turns there will be is known only at the end.
    while 0 < h {
        if 0 < count && left == 0 {
            let words = turns.saturating_mul(WORDS_A_TURN);
            let Some(still) = look(nodes, state, scratch, count, words) else {
                return fail(state, n, trail);
            };
            count = still;
            turns = doubled(turns);
            left = turns;
        } else {
            left = after_turn(left, count, h);
            let t = next_turn(nodes, state, scratch, h);
            match t {
                Ok(j) => h = j,
                Err(TurnStop::Clash) => return fail(state, n, trail),
                Err(TurnStop::Bind { height, cell, term }) => {
                    let plain = closes_none(nodes, state, cell, term, closed);
                    count = note_pending(scratch, count, cell, plain);
                    bind(state, trail, cell, term);
                    closed = closed_to(cell, term.copy, closed);
                    trail += 1;
                    h = height;
                }
            }
        }
    }
    // The rows are at their end: the bindings are those of the unifier, unless they close a cycle.
    if is_cyclic(nodes, state, scratch, count) {
        return fail(state, n, trail);
    }
    UnifyAnswer { equal: true, trail }
}

/// As `unify`, with the copies below k closed: their cells are bound to terms of such copies only.
pub fn unify_closed(
    nodes: &[u32],
    state: &mut [u32],
    scratch: &mut [u32],
    p: At,
    q: At,
    n: usize,
    k: usize,
) -> UnifyAnswer
    requires unifiable { Unifiable nodes.now state.old scratch.old p q n }
    requires closed { Closed k state.old }
    ensures { (g : Unifiable nodes.now state.old scratch.old p q n) → UnifyGives g state.new scratch.new result }
{
    forget(scratch);
    put_pair(scratch, 0, only_row(p), only_row(q));
    solve_pair(nodes, state, scratch, n, k)
}

/// Unifies the terms p and q, with n bindings on the trail. Where they do not unify, there are n again.
pub fn unify(
    nodes: &[u32],
    state: &mut [u32],
    scratch: &mut [u32],
    p: At,
    q: At,
    n: usize,
) -> UnifyAnswer
    requires { Unifiable nodes.now state.old scratch.old p q n }
    ensures { (g : Unifiable nodes.now state.old scratch.old p q n) → UnifyGives g state.new scratch.new result }
{
    unify_closed(nodes, state, scratch, p, q, n, 0)
}
