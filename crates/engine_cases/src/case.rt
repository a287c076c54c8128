// The cases of a file. What is printed of them is compared with what tests/make_cases.py expects of the separately written engine. The contracts of this
// program say that records are passed one after another, and what parts of them are; what is printed is tried, and no definition says it.
ghost use Rattle.std.specs.Prelude.{◌≡◌, ◌≤◌, ◌<◌, [], length, IsOk, IfOk};
ghost use Rattle.std.specs.Io.KnownBytes.{Keeps};

use std::io::{Result, Write};

/// A kind of case: how a record of its file is answered.
pub trait Case {
    /// Answers the record at place `at` of the file and returns the place past it.
    fn answer<W: Write>(out: &mut W, cases: &[u8], at: usize) -> Result<usize>
        requires { at < length cases.now }
        ensures { IfOk result (λ next. (at < next) × (next ≤ length cases.now)) };
}

/// Answers all records of a file, one after another. For an empty file nothing is printed.
pub fn answer_all<C: Case, W: Write>(out: &mut W, cases: &[u8]) -> Result<()>
    ensures { cases.now ≡ [] → IsOk result × Keeps (W.contents out.old) (W.contents out.new) }
{
    let mut at = 0;
    // Each record says where the next begins.
    while at < cases.len() {
        at = C::answer(out, cases, at)?;
    }
    Ok(())
}
