// Bindings of which it is plain that they close no cycle.
ghost use Rattle.std.specs.Prelude.{◌≡◌, ◌+◌, ◌*◌, ◌<◌, ◌≤◌, true, length};
ghost use Rattle.run_layout.specs.Regions.{copies, copy_cells, cells};
ghost use Rattle.bindings.specs.Plain.{Constant, Other, Plain, Closing};

use run_layout::terms::At;
use run_layout::{LOADED_NODE, cell_copy, cell_of};
use syntax::FIRST_NAME;
use words::tables::{size_at, word_at};

// Whether cell x belongs to a copy from k on, and d is a copy below k.
fn apart(x: usize, d: usize, k: usize) -> bool
    ensures { result ≡ true → (k * copy_cells ≤ x) × (d < k) }
{
    d < k && k <= cell_copy(x)
}

/// Whether a name without arguments stands at q.
pub fn is_constant(nodes: &[u32], q: usize) -> bool
    requires { q + 1 < length nodes.now }
    ensures { result ≡ true → Constant nodes.now q }
{
    FIRST_NAME <= word_at(nodes, q) && size_at(nodes, q) == LOADED_NODE
}

// Whether a term is an unbound variable other than that of cell x.
fn is_other(nodes: &[u32], state: &[u32], x: usize, at: At) -> bool
    requires { (at.node < length nodes.now) × ((cells ≤ length state.now) × (at.copy < copies)) }
    ensures { result ≡ true → Other nodes.now state.now x at.node at.copy }
{
    let w = word_at(nodes, at.node);
    if FIRST_NAME <= w {
        return false;
    }
    let y = cell_of(at.copy, w);
    word_at(state, y) == 0 && y != x
}

/// Whether it is plain that the variable of cell x does not stand in a term, where the copies below k are closed: a variable of another copy does not stand in
/// a term of these, and none in a constant or in another unbound variable.
pub fn is_plain(nodes: &[u32], state: &[u32], x: usize, at: At, k: usize) -> bool
    requires { (at.node + 1 < length nodes.now) × ((cells ≤ length state.now) × (at.copy < copies)) }
    ensures { result ≡ true → Plain nodes.now state.now x at.node at.copy k }
{
    apart(x, at.copy, k) || is_constant(nodes, at.node) || is_other(nodes, state, x, at)
}

/// How many copies are closed once cell x is bound to a term of copy d: the k that are so now, or no copies, 0.
pub fn closed_to(x: usize, d: usize, k: usize) -> usize
    ensures { Closing k x d result }
{
    if d < k || k <= cell_copy(x) { k } else { 0 }
}
