// What comes of the top alternative where it stands at a bracket. The trail is as long as the top's.

ghost use Rattle.std.specs.Prelude.{List, ℕ};
ghost use Rattle.run_layout.specs.Regions.{split_kind};
ghost use Rattle.run.specs.Steps.{AtTop, TopStepped};

use crate::alternatives::PileHeight;
use crate::alternatives::laying::lay;
use crate::alternatives::records::{Spot, Top};
use load::records::next_literal;
use words::tables::word_at;

/// Works on the top alternative `s` at a bracket (RULES, "The run"): the right side takes its place, and the left side is laid on it.
pub fn work_either(code: &[u32], state: &mut [u32], h: usize, s: Top) -> PileHeight
    requires { (nodes : List ℕ) × (scratch : List ℕ) × AtTop split_kind nodes code.now state.old scratch h s }
    ensures { (nodes scratch : List ℕ) → TopStepped nodes code.now state.old state.new scratch scratch h result }
{
    let j = h - 1;
    let c = s.copy;
    let l = s.literal;
    let trail = s.mark;
    let path = s.path;
    let right = Spot {
        copy: c,
        literal: word_at(code, l + 2),
    };
    let left = Spot {
        copy: c,
        literal: next_literal(l),
    };
    lay(code, state, j, right, trail, path);
    lay(code, state, h, left, trail, path);
    PileHeight {
        height: h + 1,
        trail,
    }
}
