// What is known ground, as flags: whether there is one more, and what two sides of a bracket leave.

ghost use Rattle.std.specs.Prelude.{◌≡◌};
ghost use Rattle.mode_rules.specs.Modes.{further, in_both};

use syntax::VARIABLES;

/// What is known ground: a flag for each variable number of a clause or goal, true where the variable is known ground.
pub type Known = [bool; VARIABLES];

/// Whether some variable that was unknown before is known ground after.
pub fn further(before: Known, after: Known) -> bool
    ensures { result ≡ further before after }
{
    before.iter().zip(&after).any(|(was, is)| !*was && *is)
}

/// What is known ground behind a bracket: what both sides leave ground.
pub fn in_both(left: Known, right: Known) -> Known
    ensures { result ≡ in_both left right }
{
    let mut both = left;
    for i in 0..VARIABLES {
        both[i] = left[i] && right[i];
    }
    both
}
