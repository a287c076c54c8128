// `R`, the settings, a sheet and a goal, or `T`, the settings, a sheet, a goal and a trace. What the runner would print with these settings is printed.
// The settings are the allowance in 3 bytes, the wanted answers in 2, the room in 3 and a byte that is 1 for the mark of a sheet stored earlier.
ghost use Rattle.std.specs.Prelude.{◌≡◌, ◌==◌, ◌+◌, ◌≤◌, length, get_or};
ghost use Rattle.engine_cases.specs.Rooms.{settings_size, two_at, three_at};

use crate::case::Case;
use crate::records::{text_at, three, two};
use crate::rooms::{TEXT_ROOM, cleared};
use output::printing::print_run;
use std::io::{Result, Write};
use syntax::RunSettings;

// The first byte of a record without a trace.
const RUN: u8 = b'R';

// The bytes of a record before its texts: the first byte and the settings.
const SETTINGS: usize = 10;

// The settings of the record at a place, but for its room.
fn settings_at(cases: &[u8], at: usize) -> RunSettings
    requires { at + settings_size ≤ length cases.now }
    ensures allowance { result.allowance ≡ three_at cases.now (at + 1) }
    ensures wanted { result.wanted ≡ two_at cases.now (at + 4) }
    ensures stored { result.stored ≡ (get_or cases.now (at + 9) 0 == 1) }
{
    let allowance = three(cases, at + 1);
    let wanted = two(cases, at + 4);
    let stored = cases[at + 9] == 1;
    RunSettings {
        allowance,
        wanted,
        stored,
    }
}

// The room for answers of the record at a place.
fn room_at(cases: &[u8], at: usize) -> usize
    requires { at + settings_size ≤ length cases.now }
    ensures { result ≡ three_at cases.now (at + 6) }
{
    three(cases, at + 6)
}

// Runs a goal with a text lent, and prints what comes of it. A run with a trace is a function by itself, so that no frame has the tables of both.
#[inline(never)]
fn run_with<'a, W: Write>(
    out: &mut W,
    sheet: &'a [u8],
    goal: &'a [u8],
    asked: RunSettings,
    text: &mut [u8],
) -> Result<()> {
    let run = pilvaust::run_written(sheet, goal, asked, text);
    print_run(out, sheet, goal, run, text)
}

// Runs a goal over a sheet and a trace with a text lent, and prints what comes of it.
#[inline(never)]
fn trace_with<'a, W: Write>(
    out: &mut W,
    sheet: &'a [u8],
    goal: &'a [u8],
    trace: &[u8],
    asked: RunSettings,
    text: &mut [u8],
) -> Result<()> {
    let run = pilvaust::run_traced(sheet, goal, trace, asked, text);
    print_run(out, sheet, goal, run, text)
}

// Calls a run with so much room for its text. A record that asks for more than `TEXT_ROOM` is passed over.
fn in_room<F: FnOnce(&mut [u8]) -> Result<()>>(room: usize, run: F) -> Result<()>
    requires { F.IsAlwaysCallable run }
{
    if TEXT_ROOM < room {
        return Ok(());
    }
    let mut text = cleared::<TEXT_ROOM>();
    run(&mut text[..room])
}

/// The kind of case of the files `run` and `trace`.
pub struct RunCase;

impl Case for RunCase {
    fn answer<W: Write>(out: &mut W, cases: &[u8], at: usize) -> Result<usize> {
        let all = cases.len();
        if all - at < SETTINGS {
            return Ok(all);
        }
        let asked = settings_at(cases, at);
        let room = room_at(cases, at);
        let sheet_part = text_at(cases, at + SETTINGS);
        let goal_part = text_at(cases, sheet_part.end);
        let sheet = &cases[sheet_part.start..sheet_part.end];
        let goal = &cases[goal_part.start..goal_part.end];
        if cases[at] == RUN {
            in_room(room, |text| run_with(out, sheet, goal, asked, text))?;
            return Ok(goal_part.end);
        }
        let trace_part = text_at(cases, goal_part.end);
        let trace = &cases[trace_part.start..trace_part.end];
        in_room(room, |text| {
            trace_with(out, sheet, goal, trace, asked, text)
        })?;
        Ok(trace_part.end)
    }
}
