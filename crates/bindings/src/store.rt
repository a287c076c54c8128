// Cells and the trail.
ghost use Rattle.std.specs.Prelude.{◌≡◌, ◌+◌, ◌^◌, ◌<◌, ◌≤◌, length};
ghost use Rattle.run_layout.specs.Regions.{copies, cells, trail};
ghost use Rattle.run_layout.specs.State.{bound_words, word_of};
ghost use Rattle.bindings.specs.Cells.{bound_at, CellTerm, StoredTerm, Dereferences, Stored, Undone};

use run_layout::terms::{At, pack, unpack};
use run_layout::{TRAIL, cell_of};
use syntax::FIRST_NAME;

/// The run-time term of a cell's word; none where the cell is unbound, which is the word 0.
pub fn held(w: usize) -> Option<At>
    ensures { CellTerm w result }
{
    if w == 0 {
        return None;
    }
    Some(unpack(w))
}

/// The term that a variable is bound to; none where it is unbound, or the term a name.
pub fn bound_at(nodes: &[u32], state: &[u32], at: At) -> Option<At>
    requires { (at.node < length nodes.now) × ((cells ≤ length state.now) × (at.copy < copies)) }
    ensures { CellTerm (bound_at nodes.now state.now at.node at.copy) result }
{
    let w = nodes[at.node] as usize;
    if FIRST_NAME <= w {
        return None;
    }
    let x = cell_of(at.copy, w);
    held(state[x] as usize)
}

/// Where a term leads: to a name, or to an unbound variable.
pub fn deref(nodes: &[u32], state: &[u32], from: At) -> At
    requires { StoredTerm nodes.now state.now from.node from.copy }
    ensures { (g : StoredTerm nodes.now state.now from.node from.copy) → Dereferences g.known g.ss nodes.now state.now g.n from.node
        from.copy result.node result.copy }
{
    let mut at = from;
    // How many links a chain has is known only at its end.
    while let Some(next) = bound_at(nodes, state, at) {
        at = next;
    }
    at
}

/// Binds cell x to a term, as entry n of the trail.
pub fn bind(state: &mut [u32], n: usize, x: usize, at: At)
    requires { (x < cells) × ((trail + n < length state.old) × (word_of at.node at.copy < 2 ^ 32)) }
    ensures { state.new ≡ bound_words state.old n x (word_of at.node at.copy) }
{
    state[x] = pack(at) as u32;
    state[TRAIL + n] = x as u32;
}

/// Undoes the trail's entries from a mark up to n, the newest first: their cells are unbound.
pub fn undo(state: &mut [u32], mark: usize, n: usize)
    requires stored { Stored state.old n }
    requires mark_le_n { mark ≤ n }
    ensures { Undone state.old state.new mark n }
{
    for i in (mark..n).rev() {
        let at = TRAIL + i;
        let x = state[at] as usize;
        state[x] = 0;
    }
}
