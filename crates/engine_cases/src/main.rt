// Answers every case of the files that tests/make_cases.py writes, one file for each kind of them. A file that cannot be read counts as empty. The files
// `run` and `trace` have cases of one kind.

#![tactic(auto)]

mod case;
mod check_case;
mod determinacy_case;
mod format_case;
mod list_case;
mod numbers;
mod read_case;
mod records;
mod rooms;
mod run_case;
mod workings_case;

use case::{Case, answer_all};
use check_case::CheckCase;
use determinacy_case::DeterminacyCase;
use format_case::FormatCase;
use input::read_file;
use list_case::ListCase;
use read_case::ReadCase;
use rooms::{FILE_ROOM, cleared};
use run_case::RunCase;
use std::io;
use std::io::Result;
use std::rt::Files;
use workings_case::WorkingsCase;

// Answers the cases of a file, with room for it. Each kind has a frame of its own: the tables of a run and those of the test for at most one end
// together pass the usual native stack.
#[inline(never)]
fn answer_file<C: Case, R: Files + Print>(rt: &R, name: &str, room: &mut [u8]) -> Result<()> {
    let n = read_file(rt, name, room);
    answer_all::<C, _>(&mut io::writer(rt), &room[..n])
}

fn main(rt: HostRuntime) -> Result<()> {
    let mut room = cleared::<FILE_ROOM>();
    answer_file::<ReadCase, _>(&rt, "read", &mut room)?;
    answer_file::<CheckCase, _>(&rt, "check", &mut room)?;
    answer_file::<RunCase, _>(&rt, "run", &mut room)?;
    answer_file::<ListCase, _>(&rt, "list", &mut room)?;
    answer_file::<RunCase, _>(&rt, "trace", &mut room)?;
    answer_file::<DeterminacyCase, _>(&rt, "determinacy", &mut room)?;
    answer_file::<FormatCase, _>(&rt, "format", &mut room)?;
    answer_file::<WorkingsCase, _>(&rt, "workings", &mut room)
}
