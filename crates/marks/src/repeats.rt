// Refusal 7 of RULES: a declaration that repeats an earlier predicate, or names `true` or `fail` without arguments.

ghost use Rattle.std.specs.Prelude.{◌≡◌, [], ◌<◌, take};
ghost use Rattle.syntax.specs.Reading.{repeats, first_repeat};
ghost use Rattle.marks.specs.Repeating.{repeat_of, nth_declaration};
ghost use Rattle.marks.specs.InTables.{DeclarationsIn};

use crate::declarations::{Declarations, name_bytes};
use words::texts::{is_fail, is_true};

// Whether declaration `i` is at fault.
fn is_repeat(declarations: Declarations<'_>, i: usize) -> bool
    requires { i < declarations.count }
    ensures { (w : DeclarationsIn declarations.entry) → result ≡ repeats (take i w.list) (nth_declaration w.list i) }
{
    let name = declarations.name_of(i);
    let bytes = name_bytes(declarations.text, name);
    let earlier = Declarations {
        text: declarations.text,
        words: declarations.words,
        count: i,
    };
    earlier.find(bytes, name.arguments).is_some()
        || name.arguments == 0
            && (is_true(declarations.text, name.at, name.len)
                || is_fail(declarations.text, name.at, name.len))
}

/// The byte of the name of the first declaration at fault; none where no declaration is.
pub fn first_repeat(declarations: Declarations<'_>) -> Option<usize>
    ensures { (w : DeclarationsIn declarations.entry) → result ≡ repeat_of (first_repeat [] w.list) }
{
    for i in 0..declarations.count {
        if is_repeat(declarations, i) {
            return Some(declarations.name_of(i).at);
        }
    }
    None
}
