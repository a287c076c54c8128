// Run-time terms: each is the place of a node and a copy, and both fit into a cell's word.
ghost use Rattle.std.specs.Prelude.{◌≡◌, ◌<◌, ◌^◌};
ghost use Rattle.run_layout.specs.State.{at_of, word_of};

use crate::COPIES;

/// A run-time term: the term that stands at a place of the node table, in a copy.
#[derive(Clone, Copy, PartialEq, Eq)]
pub struct At {
    /// The place of its first word in the node table.
    pub node: usize,
    /// The copy to which its variables belong, the goal's being 0.
    pub copy: usize,
}

/// A run-time term as a cell's word, which is never 0: that is the word of an unbound cell.
pub fn pack(at: At) -> usize
    requires { word_of at.node at.copy < 2 ^ 64 }
    ensures { result ≡ word_of at.node at.copy }
{
    at.node * COPIES + at.copy + 1
}

/// The run-time term of a cell's word. The word 0 stands for none; for it the term of the word 1 is given.
pub fn unpack(w: usize) -> At
    ensures { result ≡ at_of w }
{
    let v = w.saturating_sub(1);
    At {
        node: v / COPIES,
        copy: v % COPIES,
    }
}
