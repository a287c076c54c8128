// What comes of the top alternative, by the literal it stands at. The trail is as long as the top's.
ghost use Rattle.std.specs.Prelude.{◌-◌};
ghost use Rattle.syntax.specs.Words.{equation_kind};
ghost use Rattle.run_layout.specs.Pile.{mark_at};
ghost use Rattle.run.specs.Steps.{Steppable, AtTop, TopStepped};

use crate::alternatives::PileHeight;
use crate::alternatives::laying::lay;
use crate::alternatives::records::{Spot, Top, top_at};
use crate::brackets::work_either;
use crate::calls::work_call;
use load::records::{Compiled, next_literal};
use run_layout::SPLIT_KIND;
use run_layout::terms::At;
use syntax::{CALL_KIND, EQUATION_KIND, TRUTH_KIND};
use unify::solve::unify;
use words::tables::word_at;

// Works on the top alternative at an equation: where the sides unify, the literal goes, else the alternative.
fn work_equation(
    program: Compiled,
    state: &mut [u32],
    scratch: &mut [u32],
    h: usize,
    s: Top,
) -> PileHeight
    requires { AtTop equation_kind program.nodes.now program.code.now state.old scratch.old h s }
    ensures { TopStepped program.entry.nodes.now program.entry.code.now state.old state.new scratch.old scratch.new h result }
{
    let j = h - 1;
    let c = s.copy;
    let l = s.literal;
    let p = word_at(program.code, l + 1);
    let q = word_at(program.code, l + 2);
    let u = unify(
        program.nodes,
        state,
        scratch,
        At { node: p, copy: c },
        At { node: q, copy: c },
        s.mark,
    );
    let trail = u.trail;
    if u.equal {
        let rest = Spot {
            copy: c,
            literal: next_literal(l),
        };
        lay(program.code, state, j, rest, trail, s.path);
        return PileHeight { height: h, trail };
    }
    PileHeight { height: j, trail }
}

/// Works on the top alternative by the kind of its literal. At `fail` and where no literal is left, the alternative goes. Kinds are compared as numbers, as the
/// code holds them.
pub fn work(program: Compiled, state: &mut [u32], scratch: &mut [u32], h: usize) -> PileHeight
    requires { Steppable program.nodes.now program.code.now state.old scratch.old h (mark_at state.old (h - 1)) }
    ensures { TopStepped program.entry.nodes.now program.entry.code.now state.old state.new scratch.old scratch.new h result }
{
    let j = h - 1;
    let s = top_at(state, j);
    let l = s.literal;
    let kind = word_at(program.code, l);
    if kind == CALL_KIND {
        return work_call(program, state, scratch, h, s);
    }
    if kind == EQUATION_KIND {
        return work_equation(program, state, scratch, h, s);
    }
    if kind == SPLIT_KIND {
        return work_either(program.code, state, h, s);
    }
    let trail = s.mark;
    if kind == TRUTH_KIND {
        let rest = Spot {
            copy: s.copy,
            literal: next_literal(l),
        };
        lay(program.code, state, j, rest, trail, s.path);
        return PileHeight { height: h, trail };
    }
    PileHeight { height: j, trail }
}
