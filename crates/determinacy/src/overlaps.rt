// Whether the + arguments of two clauses of one predicate have a common instance. The words lent for unification begin and end without bindings.

ghost use Rattle.std.specs.Prelude.{◌≡◌, ◌+◌, ◌≤◌, ◌<◌, ◌^◌, length};
ghost use Rattle.run_layout.specs.Regions.{clause_record, clause_size};
ghost use Rattle.run_layout.specs.Program.{head_at, after_at};
ghost use Rattle.determinacy.specs.Overlaps.{some_number, PairOf, OverlapAnswer, ClauseOf, FirstBehind};

use crate::inputs::{Arguments, join_inputs};
use bindings::store::undo;
use load::records::Compiled;
use run_layout::{CLAUSE_SIZE, LOADED_NODE};
use words::tables::{past, word_at};

// The place of the head of clause k.
fn head_of(code: &[u32], k: usize) -> usize
    requires { (k < 2 ^ 32) × (clause_record k + clause_size ≤ length code.now) }
    ensures { result ≡ head_at code.now k }
{
    let i = k * CLAUSE_SIZE;
    word_at(code, i)
}

// The next clause of clause k's predicate; the word in the code is 0 where there is none.
fn after_of(code: &[u32], k: usize) -> Option<usize>
    requires { (k < 2 ^ 32) × (clause_record k + clause_size ≤ length code.now) }
    ensures { result ≡ some_number (after_at code.now k) }
{
    let i = k * CLAUSE_SIZE + 2;
    let after = word_at(code, i);
    if after == 0 {
        return None;
    }
    Some(after)
}

// Whether the + arguments of clauses i and j, of one predicate with these marks, have a common instance.
fn overlaps(
    program: Compiled,
    state: &mut [u32],
    scratch: &mut [u32],
    i: usize,
    j: usize,
    marks: usize,
) -> bool
    requires { PairOf program.nodes.now program.code.now state.old scratch.old i j marks }
    ensures { (w : PairOf program.entry.nodes.now program.entry.code.now state.old scratch.old i j marks)
        → OverlapAnswer w state.new scratch.new result }
{
    let p = head_of(program.code, i);
    let q = head_of(program.code, j);
    let args = Arguments {
        left: p + LOADED_NODE,
        stop: past(program.nodes, p),
        right: q + LOADED_NODE,
        marks,
    };
    let u = join_inputs(program.nodes, state, scratch, args, 0);
    undo(state, 0, u.trail);
    u.equal
}

/// The number of the first clause behind clause `i`, of its predicate, whose + arguments have a common instance with its own; None where none has.
pub fn first_overlap(
    program: Compiled,
    state: &mut [u32],
    scratch: &mut [u32],
    i: usize,
    marks: usize,
) -> Option<usize>
    requires { ClauseOf program.nodes.now program.code.now state.old scratch.old i marks }
    ensures { (w : ClauseOf program.entry.nodes.now program.entry.code.now state.old scratch.old i marks)
        → FirstBehind w state.new scratch.new result }
{
    let mut next = after_of(program.code, i);
    // The clauses of a predicate are a chain: each record names the next.
    while let Some(j) = next {
        if overlaps(program, state, scratch, i, j, marks) {
            return Some(j);
        }
        next = after_of(program.code, j);
    }
    None
}
