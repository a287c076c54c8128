// The runner (RULES, "Two programs and what they print"): runs the goal in the file `goal` over the sheet in the file `sheet` and the recorded session in
// the file `trace`, within 65,536 steps, for at most 16 answers of at most 4,096 bytes together, and prints the answers and the report. A file that cannot be
// read counts as empty. One byte more than the limit is read of each, so that a text past it is known by its length.

#![tactic(auto)]

ghost use Rattle.std.specs.Prelude.{OnOk};
ghost use Rattle.std.specs.Io.KnownBytes.{Appends};
ghost use Rattle.starred_cases.specs.Programs.{runner};

use input::read_file;
use output::printing::print_run;
use std::io::{self, Write};
use syntax::{GOAL_BYTES, MOST_STEPS, RunSettings, SHEET_BYTES, TRACE_BYTES};

// How many bytes of the sheet are read at most.
const SHEET_ROOM: usize = SHEET_BYTES + 1;

// How many bytes of the goal are read at most.
const GOAL_ROOM: usize = GOAL_BYTES + 1;

// How many bytes of the trace are read at most.
const TRACE_ROOM: usize = TRACE_BYTES + 1;

// The most answers that are wanted.
const ANSWERS: usize = 16;

// The bytes of text that the run is lent for its answers.
const TEXT_BYTES: usize = 4096;

// Prints what a goal over a sheet and a trace gives: all that the program prints, for any writer.
fn run_and_print<W: Write>(out: &mut W, sheet: &[u8], goal: &[u8], trace: &[u8]) -> io::Result<()>
    ensures { OnOk result (Appends (W.contents out.old) (W.contents out.new) (runner sheet.now goal.now trace.now)) }
{
    let mut text = [0u8; TEXT_BYTES];
    let asked = RunSettings {
        allowance: MOST_STEPS,
        wanted: ANSWERS,
        stored: false,
    };
    let answer = pilvaust::run_traced(sheet, goal, trace, asked, &mut text);
    print_run(out, sheet, goal, answer, &text)
}

fn main(rt: HostRuntime) -> io::Result<()> {
    let mut sheet = [0u8; SHEET_ROOM];
    let mut goal = [0u8; GOAL_ROOM];
    let mut trace = [0u8; TRACE_ROOM];
    let n = read_file(&rt, "sheet", &mut sheet);
    let m = read_file(&rt, "goal", &mut goal);
    let k = read_file(&rt, "trace", &mut trace);
    run_and_print(&mut io::writer(&rt), &sheet[..n], &goal[..m], &trace[..k])
}
