// The declarations of a sheet as they stand in a table, and as entries of a list.

ghost use Rattle.std.specs.Prelude.{◌≡◌, ◌*◌, ◌≤◌, length};
ghost use Rattle.syntax.specs.Words.{declaration_size};
ghost use Rattle.output.specs.Listings.{entry_words, listed_of};

use syntax::{DECLARED_WORDS, Entry, Verdict};
use words::tables::entry_at;

/// The entry of declaration `i`, counted from 0, of the `n` that stand in a table; None where there are not so many.
pub fn entry_of(declared: &[u32], n: usize, i: usize) -> Option<Entry>
    requires { declaration_size * n ≤ length declared.now }
    ensures { result ≡ entry_words declared.now n i }
{
    if n <= i {
        return None;
    }
    Some(entry_at(declared, i))
}

/// The answer to a sheet: `words` are its declarations as the table holds them, of which a list takes the first `count`. The array has room for the most
/// declarations that a sheet may have, since the library allocates nothing.
#[derive(Clone, Copy)]
pub struct Listing {
    pub verdict: Verdict,
    pub count: usize,
    pub words: [u32; DECLARED_WORDS],
}

/// How many entries of a sheet a list with room for so many takes; 0 of one that is refused.
pub fn listed(verdict: Verdict, room: usize) -> usize
    ensures { result ≡ listed_of verdict room }
{
    match verdict {
        Ok(counts) => counts.declarations.min(room),
        Err(_) => 0,
    }
}
