// Whether bindings close a cycle: one depth-first search over the cells that are reached from the pending ones. A cell that is entered is marked as open and
// put on the path, with the place reached in its term; when all variables of the term are done, so is the cell. A bound variable whose cell is open closes a
// cycle. The marks stand where those of cells do, and the cells entered are listed as the trail lists bound cells, so that `undo` unmarks them.

ghost use Rattle.std.specs.Prelude.{Some, None, ◌⊎◌, ◌≡◌, ◌+◌, ◌^◌, ◌≤◌, ◌<◌, true, false, length, get_or};
ghost use Rattle.syntax.specs.Words.{first_name};
ghost use Rattle.run_layout.specs.Regions.{copies, cells, slots, slot_count};
ghost use Rattle.run_layout.specs.State.{cell_of, cell_at, node_of};
ghost use Rattle.bindings.specs.Cells.{StoredTerm};
ghost use Rattle.bindings.specs.Plain.{Plain};
ghost use Rattle.bindings.specs.Scratch.{Roomy};
ghost use Rattle.unify.specs.Cycles.{LeafCell, Shallow, term_end, CellSettled, LeadsOn, Lookable, Found, DoneWith, FirstPlace};
ghost use Rattle.unify.specs.Cycles.{Searching, Enterable, EnteredCell, SearchTurned, SearchStopped, from_start, SearchEnded};
ghost use Rattle.unify.specs.Cycles.{Testable, AllSearched, CycleTested, Tested};

use bindings::occurrence::{is_constant, is_plain};
use bindings::store::{bind, undo};
use run_layout::terms::{At, unpack};
use run_layout::{
    CELLS, COPIES, LOADED_NODE, PATH, PATH_SIZE, PENDING, SLOT_COUNT, SLOTS, cell_of,
};
use syntax::FIRST_NAME;
use words::tables::{put, size_at, word_at};

// The mark of a cell whose term is being looked at, as a cell's word: any node in copy 0.
const OPEN: At = At { node: 0, copy: 0 };

// The mark of a cell from which no cycle can be reached, as a word.
const DONE: usize = 2;

// The words of a node, in each copy, as cells' words.
const TERM_WORDS: usize = LOADED_NODE * COPIES;

// How far apart the slots of a node's copies are; odd, so that no two of them are the same.
const SPREAD: usize = 97;

// The words of a term that is looked at, in place of a search.
const MOST_SHALLOW: usize = 16 * LOADED_NODE;

/// How far a search has come: the cells on its path, the cells entered, and how many words of terms it may still enter, where there is a limit.
#[derive(Clone, Copy)]
pub struct Progress {
    pub height: usize,
    pub entered: usize,
    pub left: Option<usize>,
}

/// What a search comes to. A limited one may be given up.
#[derive(Clone, Copy)]
pub enum CycleSearch {
    Cycle,
    NoCycle,
    GivenUp,
}

// Whether a name stands at a place, or a variable, not that of cell x, that is unbound or bound to a constant.
fn is_leaf(nodes: &[u32], state: &[u32], x: usize, here: At) -> bool
    requires { StoredTerm nodes.now state.now here.node here.copy }
    ensures { result ≡ true → get_or nodes.now here.node 0 < first_name
        → LeafCell nodes.now state.now x (cell_of here.copy (get_or nodes.now here.node 0)) }
{
    let w = word_at(nodes, here.node);
    if FIRST_NAME <= w {
        return true;
    }
    let y = cell_of(here.copy, w);
    if y == x {
        return false;
    }
    let v = word_at(state, y);
    if v == 0 {
        return true;
    }
    is_constant(nodes, unpack(v).node)
}

// Whether each variable of a small term is another than that of cell x, and unbound or bound to a constant.
fn is_shallow(nodes: &[u32], state: &[u32], x: usize, at: At) -> bool
    requires { StoredTerm nodes.now state.now at.node at.copy }
    ensures { (g : StoredTerm nodes.now state.now at.node at.copy) → result ≡ true → Shallow g x }
{
    let size = size_at(nodes, at.node);
    if MOST_SHALLOW < size {
        return false;
    }
    let e = at.node + size;
    let mut i = at.node;
    while i < e {
        if !is_leaf(nodes, state, x, At { node: i, ..at }) {
            return false;
        }
        i += LOADED_NODE;
    }
    true
}

/// Whether it is plain, with no search, that the binding of cell x to a term closes no cycle, where the copies below k are closed.
pub fn closes_none(nodes: &[u32], state: &[u32], x: usize, at: At, k: usize) -> bool
    requires { StoredTerm nodes.now state.now at.node at.copy }
    ensures { (g : StoredTerm nodes.now state.now at.node at.copy) → result ≡ true
        → Plain nodes.now state.now x at.node at.copy k ⊎ Shallow g x }
{
    if is_plain(nodes, state, x, at, k) {
        return true;
    }
    is_shallow(nodes, state, x, at)
}

// Whether the variable at a place, in a copy, is bound and its cell not done.
fn leads_on(nodes: &[u32], state: &[u32], scratch: &[u32], here: At) -> bool
    requires { (here.node < length nodes.now) × ((here.copy < copies) × ((cells ≤ length state.now) × (cells ≤ length scratch.now))) }
    ensures stays { result ≡ false → get_or nodes.now here.node 0 < first_name
        → CellSettled state.now scratch.now (cell_of here.copy (get_or nodes.now here.node 0)) }
    ensures leads { result ≡ true → LeadsOn nodes.now state.now scratch.now here.node here.copy }
{
    let w = word_at(nodes, here.node);
    if FIRST_NAME <= w {
        return false;
    }
    let y = cell_of(here.copy, w);
    word_at(state, y) != 0 && word_at(scratch, y) != DONE
}

// The first place from one on and below e whose variable leads on; e where there is none.
fn next_place(nodes: &[u32], state: &[u32], scratch: &[u32], from: At, e: usize) -> usize
    requires { Lookable nodes.now state.now scratch.now from e }
    ensures { (g : Lookable nodes.now state.now scratch.now from e) → Found g result }
{
    let mut i = from.node;
    // A `while`, since the speed of the search is decided here.
    while i < e {
        if leads_on(nodes, state, scratch, At { node: i, ..from }) {
            return i;
        }
        i += LOADED_NODE;
    }
    i
}

// Where the slot of a cell's word stands. It says which cell was done with that word, perhaps; nothing is asked of what stands there. The nodes of a copy have
// slots of their own, and so have the copies of a node.
fn slot_of(w: usize) -> usize
    ensures { (slots ≤ result) × (result < slots + slot_count) }
{
    SLOTS + (w / TERM_WORDS + w % COPIES * SPREAD) % SLOT_COUNT
}

// Whether a cell that is bound to the word w is known to be done.
fn is_done(state: &[u32], scratch: &[u32], w: usize) -> bool
    requires { (cells ≤ length state.now) × (Roomy scratch.now) }
    ensures { result ≡ true → DoneWith state.now scratch.now w }
{
    let z = word_at(scratch, slot_of(w));
    z < CELLS && word_at(scratch, z) == DONE && word_at(state, z) == w
}

// The place in the term of the word w to be looked at first: its end, where a cell that is bound to the same is done.
fn first_place(nodes: &[u32], state: &[u32], scratch: &[u32], w: usize) -> usize
    requires { ((cells ≤ length state.now) × (Roomy scratch.now)) × ((node_of w + 1 < length nodes.now) × (term_end nodes.now w < 2 ^ 64)) }
    ensures { FirstPlace nodes.now state.now scratch.now w result }
{
    let q = unpack(w).node;
    if is_done(state, scratch, w) {
        return q + size_at(nodes, q);
    }
    q
}

// What is left of a limit when a term of so many words is entered.
fn spent(left: Option<usize>, size: usize) -> Option<usize>
    ensures { left ≡ None → result ≡ None }
{
    match left {
        Some(n) => Some(n.saturating_sub(size)),
        None => None,
    }
}

// Whether nothing is left of a limit.
fn is_spent(left: Option<usize>) -> bool
    ensures spent { result ≡ true → left ≡ Some 0 }
    ensures stays { result ≡ false → left ≡ Some 0 → ⊥ }
{
    match left {
        Some(n) => n == 0,
        None => false,
    }
}

// Cell y, which is bound and not marked, put on the path.
fn enter(nodes: &[u32], state: &[u32], scratch: &mut [u32], p: Progress, y: usize) -> Progress
    requires { Enterable nodes.now state.now scratch.old p y }
    ensures { (g : Enterable nodes.now state.now scratch.old p y) → EnteredCell g scratch.new result }
{
    let w = word_at(state, y);
    let first = first_place(nodes, state, scratch, w);
    bind(scratch, p.entered, y, OPEN);
    let i = PATH + p.height * PATH_SIZE;
    put(scratch, i, y);
    put(scratch, i + 1, first);
    let size = size_at(nodes, unpack(w).node);
    Progress {
        height: p.height + 1,
        entered: p.entered + 1,
        left: spent(p.left, size),
    }
}

// The cell on top of the path looked at further: a cell more on the path, or this one done; none where a cycle is found.
fn search_turn(nodes: &[u32], state: &[u32], scratch: &mut [u32], p: Progress) -> Option<Progress>
    requires { (Searching nodes.now state.now scratch.old p) × (1 ≤ p.height) }
    ensures { (g : Searching nodes.now state.now scratch.old p) → SearchTurned g scratch.new result }
{
    let top = PATH + (p.height - 1) * PATH_SIZE;
    let x = word_at(scratch, top);
    let from = word_at(scratch, top + 1);
    let w = word_at(state, x);
    let at = unpack(w);
    let e = at.node + size_at(nodes, at.node);
    let i = next_place(nodes, state, scratch, At { node: from, ..at }, e);
    if e <= i {
        put(scratch, x, DONE);
        put(scratch, slot_of(w), x);
        return Some(Progress {
            height: p.height - 1,
            ..p
        });
    }
    let v = word_at(nodes, i);
    let y = cell_of(at.copy, v);
    if word_at(scratch, y) != 0 {
        return None;
    }
    put(scratch, top + 1, i);
    Some(enter(nodes, state, scratch, p, y))
}

// Turns until the path is empty, or the limit is spent. Then, and where a cycle is found, the path stands.
fn search_on(nodes: &[u32], state: &[u32], scratch: &mut [u32], start: Progress) -> Progress
    requires { Searching nodes.now state.now scratch.old start }
    ensures { (g : Searching nodes.now state.now scratch.old start) → SearchStopped g scratch.new result }
{
    let mut p = start;
    // How many turns a search takes is known only at its end.
    while 0 < p.height {
        if is_spent(p.left) {
            return p;
        }
        let Some(q) = search_turn(nodes, state, scratch, p) else {
            return p;
        };
        p = q;
    }
    p
}

// A search from cell x on, so many cells having been entered, with so much left of a limit.
fn search(
    nodes: &[u32],
    state: &[u32],
    scratch: &mut [u32],
    m: usize,
    left: Option<usize>,
    x: usize,
) -> Progress
    requires given { Searching nodes.now state.now scratch.old (from_start m left) }
    requires cell { x < cells }
    requires bound { cell_at state.now x ≡ 0 → ⊥ }
    requires unmarked { get_or scratch.old x 0 ≡ 0 }
    ensures { (g : Searching nodes.now state.now scratch.old (from_start m left)) → SearchEnded g scratch.new x result }
{
    let start = Progress {
        height: 0,
        entered: m,
        left,
    };
    let p = enter(nodes, state, scratch, start, x);
    search_on(nodes, state, scratch, p)
}

// The same, unless cell x is marked: then it is done.
fn search_from(
    nodes: &[u32],
    state: &[u32],
    scratch: &mut [u32],
    m: usize,
    left: Option<usize>,
    x: usize,
) -> Progress
    requires given { Searching nodes.now state.now scratch.old (from_start m left) }
    requires cell { x < cells }
    requires bound { cell_at state.now x ≡ 0 → ⊥ }
    ensures { (g : Searching nodes.now state.now scratch.old (from_start m left)) → SearchEnded g scratch.new x result }
{
    if word_at(scratch, x) != 0 {
        return Progress {
            height: 0,
            entered: m,
            left,
        };
    }
    search(nodes, state, scratch, m, left, x)
}

// Searches from so many pending cells, one after the other, until a cycle is found or the limit is spent.
fn search_pending(
    nodes: &[u32],
    state: &[u32],
    scratch: &mut [u32],
    pending: usize,
    limit: Option<usize>,
) -> Progress
    requires { Testable nodes.now state.now scratch.old pending }
    ensures { (g : Testable nodes.now state.now scratch.old pending) → AllSearched g limit scratch.new result }
{
    let mut m = 0;
    let mut left = limit;
    for k in 0..pending {
        let x = word_at(scratch, PENDING + k);
        let p = search_from(nodes, state, scratch, m, left, x);
        if 0 < p.height {
            return p;
        }
        m = p.entered;
        left = p.left;
    }
    Progress {
        height: 0,
        entered: m,
        left,
    }
}

/// Whether one of so many pending cells reaches a cycle of cells. With a limit the search is given up where the terms that it enters have more words.
pub fn find_cycle(
    nodes: &[u32],
    state: &[u32],
    scratch: &mut [u32],
    pending: usize,
    limit: Option<usize>,
) -> CycleSearch
    requires { Testable nodes.now state.now scratch.old pending }
    ensures { (g : Testable nodes.now state.now scratch.old pending) → CycleTested g limit scratch.new result }
{
    let p = search_pending(nodes, state, scratch, pending, limit);
    undo(scratch, 0, p.entered);
    if p.height == 0 {
        return CycleSearch::NoCycle;
    }
    if is_spent(p.left) {
        CycleSearch::GivenUp
    } else {
        CycleSearch::Cycle
    }
}

/// Whether one of so many pending cells reaches a cycle of cells.
pub fn is_cyclic(nodes: &[u32], state: &[u32], scratch: &mut [u32], pending: usize) -> bool
    requires { Testable nodes.now state.now scratch.old pending }
    ensures { (g : Testable nodes.now state.now scratch.old pending) → Tested g scratch.new result }
{
    if pending == 0 {
        return false;
    }
    match find_cycle(nodes, state, scratch, pending, None) {
        CycleSearch::NoCycle => false,
        CycleSearch::Cycle | CycleSearch::GivenUp => true,
    }
}
