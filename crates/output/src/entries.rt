// A declaration as numbers in a lent slice, for callers in other languages: as many as fit, and the rest of the slice stays as it was. And the version of
// these lists of numbers.

ghost use Rattle.std.specs.Prelude.{◌≡◌, length};
ghost use Rattle.std.proofs.lemmas.List.Edits.{sets};
ghost use Rattle.output.specs.EntriesNumbers.{version, entry_numbers};

use crate::storing::put_numbers;
use syntax::Entry;

// The version of the lists of numbers that the library gives.
const VERSION: usize = 3;

/// The version of the lists of numbers that the library gives, as `PILVAUST_VERSION` of include/pilvaust.h.
pub fn version_number() -> usize
    ensures { result ≡ version }
{
    VERSION
}

/// Writes a declaration as three numbers: byte and length of its name, number of arguments. Returns 3, and 0 where there is no declaration.
#[tactic(auto, unfolding(crate::specs::EntriesNumbers::entry_numbers))]
pub fn put_entry(declared: Option<Entry>, out: &mut [usize]) -> usize
    ensures is { result ≡ length (entry_numbers declared) }
    ensures numbers { out.new ≡ sets out.old 0 (entry_numbers declared) }
{
    match declared {
        Some(entry) => {
            let numbers = [entry.at, entry.len, entry.arguments];
            put_numbers(&numbers, out, 0)
        }
        None => 0,
    }
}
