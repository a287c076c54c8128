// A clause tried for a call that the top alternative stands at.
ghost use Rattle.std.specs.Prelude.{◌-◌};
ghost use Rattle.run.specs.Moves.{Tryable, ClauseTried};

use crate::alternatives::PileHeight;
use crate::alternatives::laying::lay;
use crate::alternatives::records::{Spot, put_frame, top_at};
use load::records::Compiled;
use run_layout::CLAUSE_SIZE;
use run_layout::terms::At;
use unify::solve::unify_closed;
use words::tables::word_at;

/// Tries clause `k` for the call at the top, as the copy one past its path; where the head unifies, the body is laid on top.
// It is a part of each step of a run, and has another caller besides: put into both, as a call it would cost a step much.
#[inline(always)]
pub fn try_clause(
    program: Compiled,
    state: &mut [u32],
    scratch: &mut [u32],
    h: usize,
    k: usize,
) -> PileHeight
    requires { Tryable program.nodes.now program.code.now state.old scratch.old h (h - 1) k }
    ensures { (w : Tryable program.entry.nodes.now program.entry.code.now state.old scratch.old h (h - 1) k)
        → ClauseTried w state.new scratch.new result }
{
    let j = h - 1;
    let s = top_at(state, j);
    let c = s.copy;
    let l = s.literal;
    let mark = s.mark;
    let new = s.path + 1;
    let i = k * CLAUSE_SIZE;
    let p = word_at(program.code, l + 1);
    let q = word_at(program.code, i);
    let u = unify_closed(
        program.nodes,
        state,
        scratch,
        At { node: p, copy: c },
        At { node: q, copy: new },
        mark,
        new,
    );
    let trail = u.trail;
    if u.equal {
        let body = word_at(program.code, i + 1);
        put_frame(state, new, k, c, l);
        let first = Spot {
            copy: new,
            literal: body,
        };
        lay(program.code, state, h, first, trail, new);
        return PileHeight {
            height: h + 1,
            trail,
        };
    }
    PileHeight { height: h, trail }
}
