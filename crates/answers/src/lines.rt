// The line of an answer, from the words of a run.

ghost use Rattle.std.specs.Prelude.{◌≡◌, List, [], ℕ, ◌+◌, ◌-◌, ◌*◌, ◌^◌, ◌≤◌, ◌<◌, length};
ghost use Rattle.run_layout.specs.Regions.{open_size};
ghost use Rattle.syntax.specs.Quote.{bytes};
ghost use Rattle.syntax.specs.Terms.{Goal};
ghost use Rattle.machine.specs.Answers.{bytes_of, values_from, line};
ghost use Rattle.run_layout.specs.Nodes.{Symbol};
ghost use Rattle.run_layout.specs.Rooms.{Clean};
ghost use Rattle.answers.specs.Words.{count_word};
ghost use Rattle.answers.specs.Telling.{Ample, Lined, bindings_of, names_of};
ghost use Rattle.answers.specs.Fitting.{Answerable, SomeAnswerable, Tellable, Fitted};

use crate::Solution;
use crate::numbers::{COUNT_WORD, unmark};
use crate::values::all_anonymous;
use run_layout::STACK;
use words::buffers::append_all;

// The line of an answer that gives no variable.
fn put_yes(text: &mut [u8], at: usize) -> Option<usize>
    requires { at ≤ length text.old }
    ensures { Fitted (bytes "yes\n") text.old at text.new result }
{
    let yes = b"yes\n";
    let room = text.len();
    if room - at < yes.len() {
        return None;
    }
    Some(append_all(yes, text, at))
}

// Appends the line of an answer that gives variables and gives the position past it; it stops once the limit is passed. The unbound variables are numbered in
// the marks, and then these are cleared.
fn append_line(
    solution: Solution,
    marks: &mut [u32],
    stack: &mut [u32],
    out: &mut [u8],
    at: usize,
    limit: usize,
) -> usize
    requires some_answerable { SomeAnswerable solution }
    requires clean { Clean marks.old }
    requires long { count_word < length marks.old }
    requires near { (at + 400 < 2 ^ 64) × ((limit + 400 < 2 ^ 64) × Ample stack.old ((limit - at) * open_size + 2 * open_size)) }
    ensures lined { (ss : List Symbol) (n : ℕ) → Answerable ss n solution.entry
        → Lined limit (bytes_of [] (values_from (bindings_of ss n solution.entry) 0 [] (names_of solution.entry))) out.old at out.new result }
    ensures clean { Clean marks.new }
{
    marks[COUNT_WORD] = 0;
    let past = solution.append_values(marks, stack, out, at, limit);
    unmark(marks);
    past
}

// The line of an answer that gives variables. It is measured first.
fn put_values(solution: Solution, scratch: &mut [u32], text: &mut [u8], at: usize) -> Option<usize>
    requires some_answerable { SomeAnswerable solution }
    requires at_in_bounds { (at ≤ length text.old) × Tellable scratch.old (length text.old - at) }
    requires clean { Clean scratch.old }
    ensures fitted { (ss : List Symbol) (n : ℕ) → Answerable ss n solution.entry
        → Fitted (bytes_of [] (values_from (bindings_of ss n solution.entry) 0 [] (names_of solution.entry))) text.old at text.new result }
    ensures clean { Clean scratch.new }
{
    let room = text.len();
    let (marks, stack) = scratch.split_at_mut(STACK);
    let mut nothing = [0u8; 0];
    let past = append_line(solution, marks, stack, &mut nothing, at, room);
    if room < past {
        return None;
    }
    Some(append_line(solution, marks, stack, text, at, room))
}

/// Writes the line of an answer, with its line feed, from `at` on and gives the position past it; where the whole line does not fit, it writes nothing and
/// gives none. In the scratch words no cell is marked, before and after; what else stands there is lost. From `STACK` on they have a row for each bracket that
/// a value can have open at once (`run_layout::DEEPEST`); or, where that is less, one for each byte of room, and two more.
pub fn put_answer(
    solution: Solution,
    scratch: &mut [u32],
    text: &mut [u8],
    at: usize,
) -> Option<usize>
    requires some_answerable { SomeAnswerable solution }
    requires at_in_bounds { (at ≤ length text.old) × Tellable scratch.old (length text.old - at) }
    requires clean { Clean scratch.old }
    ensures fitted { (ss : List Symbol) (n : ℕ) (g : Goal) → Answerable ss n solution.entry → g.names ≡ names_of solution.entry
        → Fitted (line g (bindings_of ss n solution.entry)) text.old at text.new result }
    ensures clean { Clean scratch.new }
{
    if all_anonymous(solution.goal, solution.names, solution.count) {
        return put_yes(text, at);
    }
    put_values(solution, scratch, text, at)
}
