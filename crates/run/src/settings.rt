// The settings of a run, refusal 1, and the ends of a run that its counts tell.

ghost use Rattle.std.specs.Prelude.{◌≡◌, ◌&&◌, leb};
ghost use Rattle.machine.specs.Runs.{in_range};
ghost use Rattle.run.specs.Ends.{ended_by};

use syntax::{MOST_ANSWERS, MOST_STEPS, RunEnd};

// Whether a number is from 1 to the most that there may be.
fn is_within(n: usize, most: usize) -> bool
    ensures { result ≡ (leb 1 n && leb n most) }
{
    1 <= n && n <= most
}

/// Whether a run takes these settings, 1 to 65,536 steps and 1 to 64 answers; else it is refused with 1.
pub fn in_range(allowance: usize, wanted: usize) -> bool
    ensures { result ≡ in_range allowance wanted }
{
    is_within(allowance, MOST_STEPS) && is_within(wanted, MOST_ANSWERS)
}

/// How a run has ended before its next step, as far as its counts tell; None while it may go on. `left` is what is left of the allowance. The ends are looked
/// for in the order of RULES, "The run": no alternative on the pile, as many answers as are wanted, no step left.
pub fn ended(height: usize, wanted: usize, answers: usize, left: usize) -> Option<RunEnd>
    ensures { result ≡ ended_by height wanted answers left }
{
    if height == 0 {
        return Some(RunEnd::Done);
    }
    if wanted <= answers {
        return Some(RunEnd::Wanted);
    }
    if left == 0 {
        return Some(RunEnd::Steps);
    }
    None
}
