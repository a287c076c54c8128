// The work stack: pairs of rows, of which the top is looked at first.
ghost use Rattle.std.specs.Prelude.{◌≡◌, ◌+◌, ◌*◌, ◌^◌, ◌<◌, ◌≤◌, length};
ghost use Rattle.run_layout.specs.Regions.{pair_of, pair_size, side_size};
ghost use Rattle.bindings.specs.Scratch.{stack_side, stack_side_words, pair_words};

use run_layout::{PAIR_SIZE, SIDE_SIZE, STACK};
use words::tables::{put_three, word_at};

/// One side of a pair, a row: the node whose row it is, the place reached, the copy.
#[derive(Clone, Copy)]
pub struct Side {
    pub root: usize,
    pub at: usize,
    pub copy: usize,
}

/// The side whose words stand from place i on.
pub fn side_at(scratch: &[u32], i: usize) -> Side
    requires { i + side_size ≤ length scratch.now }
    ensures { result ≡ stack_side scratch.now i }
{
    let root = word_at(scratch, i);
    let at = word_at(scratch, i + 1);
    let copy = word_at(scratch, i + 2);
    Side { root, at, copy }
}

/// Writes a side's words from place i on.
pub fn put_side(scratch: &mut [u32], i: usize, s: Side)
    requires { (i + side_size ≤ length scratch.old) × ((s.root < 2 ^ 32) × ((s.at < 2 ^ 32) × (s.copy < 2 ^ 32))) }
    ensures { scratch.new ≡ stack_side_words scratch.old i s }
{
    put_three(scratch, i, s.root, s.at, s.copy);
}

/// Writes the pair of number k, the lowest being 0.
pub fn put_pair(scratch: &mut [u32], k: usize, l: Side, r: Side)
    requires { (pair_of k + pair_size ≤ length scratch.old) × (((l.root < 2 ^ 32) × ((l.at < 2 ^ 32) × (l.copy < 2 ^ 32)))
        × ((r.root < 2 ^ 32) × ((r.at < 2 ^ 32) × (r.copy < 2 ^ 32)))) }
    ensures { scratch.new ≡ pair_words scratch.old k l r }
{
    let i = STACK + k * PAIR_SIZE;
    put_side(scratch, i, l);
    put_side(scratch, i + SIDE_SIZE, r);
}
