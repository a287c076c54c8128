// Alternatives laid: the first literal left, and its topmost clause.
ghost use Rattle.std.specs.Prelude.{◌≡◌, ◌+◌, ◌≤◌, length};
ghost use Rattle.run_layout.specs.Regions.{literal_size};
ghost use Rattle.run.specs.Words.{topmost_at};
ghost use Rattle.run.specs.Moves.{Settlable, SideEndPassed, Climbable, FirstLeft, Layable, AlternativeLaid};

use crate::alternatives::records::{Spot, Top, caller_at, put_top};
use load::records::next_literal;
use run_layout::{END_KIND, JUMP_KIND};
use syntax::CALL_KIND;
use words::tables::word_at;

// The record at which what is left at l begins: l itself, or the record behind the bracket where a side of it has ended at l.
fn settled(code: &[u32], l: usize) -> usize
    requires { Settlable code.now l }
    ensures { (w : Settlable code.now l) → SideEndPassed w.sh w.g code.now w.state w.copy l result }
{
    let mut literal = l;
    let mut kind = word_at(code, literal);
    // Each jump names the record behind its bracket, which may be a jump of the bracket around it.
    while kind == JUMP_KIND {
        literal = word_at(code, literal + 2);
        kind = word_at(code, literal);
    }
    literal
}

// The first literal left from a spot on. Where a body has ended, the caller goes on behind its call.
fn first_literal(code: &[u32], state: &[u32], at: Spot) -> Spot
    requires { Climbable code.now state.now at.copy at.literal }
    ensures { (w : Climbable code.now state.now at.copy at.literal) → FirstLeft w.sh w.g code.now state.now
        w.path at.copy at.literal result }
{
    let mut copy = at.copy;
    let mut literal = settled(code, at.literal);
    // From a copy to the one that called it, down to the goal's own, 0. Each frame names the next.
    while 0 < copy {
        if word_at(code, literal) != END_KIND {
            return Spot { copy, literal };
        }
        let s = caller_at(state, copy);
        copy = s.copy;
        let next = next_literal(s.literal);
        literal = settled(code, next);
    }
    Spot { copy, literal }
}

// The topmost clause for the literal at l; 0 where it is no call or its predicate has no clause, in the pile's word as in the code's.
fn topmost(code: &[u32], l: usize) -> usize
    requires { l + literal_size ≤ length code.now }
    ensures { result ≡ topmost_at code.now l }
{
    if word_at(code, l) != CALL_KIND {
        return 0;
    }
    word_at(code, l + 2)
}

/// Stores alternative `j`, with the first literal left from `at` on, its topmost clause, and this length of trail (`mark`) and path.
pub fn lay(code: &[u32], state: &mut [u32], j: usize, at: Spot, mark: usize, path: usize)
    requires { Layable code.now state.old j at.copy at.literal mark path }
    ensures { (w : Layable code.now state.old j at.copy at.literal mark path) → AlternativeLaid w.climbing state.new j mark }
{
    let s = first_literal(code, state, at);
    let top = Top {
        copy: s.copy,
        literal: s.literal,
        next: topmost(code, s.literal),
        mark,
        path,
    };
    put_top(state, j, top);
}
