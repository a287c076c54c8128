// What comes of the top alternative where it stands at a call. The trail is as long as the top's.

ghost use Rattle.syntax.specs.Words.{call_kind};
ghost use Rattle.run.specs.Steps.{AtTop, TopStepped};

use crate::alternatives::PileHeight;
use crate::alternatives::records::{Top, put_next};
use crate::alternatives::trying::try_clause;
use load::records::Compiled;
use run_layout::CLAUSE_SIZE;
use words::tables::word_at;

/// Works on the top alternative `s` at a call: the alternative moves on to the next clause, and then the clause is tried. Without a clause it goes.
pub fn work_call(
    program: Compiled,
    state: &mut [u32],
    scratch: &mut [u32],
    h: usize,
    s: Top,
) -> PileHeight
    requires { AtTop call_kind program.nodes.now program.code.now state.old scratch.old h s }
    ensures { TopStepped program.entry.nodes.now program.entry.code.now state.old state.new scratch.old scratch.new h result }
{
    let j = h - 1;
    // 0 says that there is no clause, in the pile's word as in the code's, of which it is a copy.
    let next = s.next;
    if next == 0 {
        return PileHeight {
            height: j,
            trail: s.mark,
        };
    }
    let i = next * CLAUSE_SIZE + 2;
    let after = word_at(program.code, i);
    put_next(state, j, after);
    try_clause(program, state, scratch, h, next)
}
