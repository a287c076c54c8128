// The result of a run that writes into a text: its report and how many bytes it has written, or the fault of a text, and then nothing is written.

ghost use Rattle.output.specs.Results.{RunRefused, RunEnded};

use syntax::{Fault, Refusal, Report, Text};

/// What a run that has ended reports, and how many bytes it has written into the text.
#[derive(Clone, Copy)]
pub struct Written {
    pub report: Report,
    pub bytes: usize,
}

/// The result of a run whose goal is refused: the text at fault is the goal.
pub fn goal_refused(refusal: Refusal) -> Result<Written, Fault>
    ensures { RunRefused Text.Goal refusal result }
{
    Err(Fault {
        text: Text::Goal,
        refusal,
    })
}

/// The result of a run that has ended: its report, and how many bytes it has written.
pub fn run_ended(report: Report, bytes: usize) -> Result<Written, Fault>
    ensures { RunEnded report bytes result }
{
    Ok(Written { report, bytes })
}
