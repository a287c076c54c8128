// The tables of a loaded program, of its run and of unification, cleared. The caller's type says how many words a table has.

ghost use Rattle.std.specs.Prelude.{◌≤◌, length};
ghost use Rattle.run_layout.specs.Regions.{store_words};
ghost use Rattle.run_layout.specs.Rooms.{Zeros, Clean};

use crate::CELLS;

/// A table of as many words as the caller's type says, all zero.
pub fn cleared<const WORDS: usize>() -> [u32; WORDS]
    ensures { Zeros WORDS result }
{
    [0; WORDS]
}

/// Clears the cells of a state, so that none is bound, or their marks in scratch words. The words behind them stay.
pub fn clear(words: &mut [u32])
    requires { store_words ≤ length words.old }
    ensures { Clean words.new }
{
    words[..CELLS].fill(0);
}
