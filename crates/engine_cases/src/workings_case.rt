// `V`, a room in 3 bytes, a sheet, a goal and its workings, which are checked with a text of so many bytes, each with the value `FILLED` before. Printed is how
// many bytes behind what is written have that value still; then the line of the answer, or that of the refusal.
ghost use Rattle.std.specs.Prelude.{◌≡◌, ◌+◌, ◌≤◌, ◌<◌, length, IfOk};

use crate::case::Case;
use crate::numbers::print_number;
use crate::records::{text_at, three};
use output::printing::print_line;
use std::io::{Result, Write};

// The bytes of a record before its texts: the first byte and the room.
const START: usize = 4;

// The most room that a case may ask for.
const LINE_ROOM: usize = 20000;

// What each byte of a text is before.
const FILLED: u8 = 170;

// A text as it is lent. Made in a function, an array of this size is known by its length alone.
fn filled() -> [u8; LINE_ROOM]
    ensures { 20000 ≡ length result }
{
    [FILLED; LINE_ROOM]
}

// Prints how many of some bytes are as they were lent.
fn print_kept<W: Write>(out: &mut W, bytes: &[u8]) -> Result<()> {
    out.write_all(b"kept")?;
    print_number(out, bytes.iter().filter(|&&byte| byte == FILLED).count())?;
    out.write_all(b"\n")
}

// Checks workings with a text of a room, and prints what comes of it. Its frame is its own, as the tables of a check are large.
#[inline(never)]
fn check_in<W: Write>(
    out: &mut W,
    sheet: &[u8],
    goal: &[u8],
    workings: &[u8],
    room: usize,
) -> Result<()>
    requires { room ≤ 20000 }
{
    let mut lent = filled();
    let text = &mut lent[..room];
    match pilvaust::check_workings(sheet, goal, workings, text) {
        Ok(length) => {
            let length = length.min(text.len());
            print_kept(out, &text[length..])?;
            out.write_all(&text[..length])
        }
        Err(fault) => {
            print_kept(out, text)?;
            print_line(
                out,
                Err(fault),
                pilvaust::fault_name(sheet, goal, Err(fault)),
            )
        }
    }
}

/// The kind of case of the file `workings`.
pub struct WorkingsCase;

impl Case for WorkingsCase {
    fn answer<W: Write>(out: &mut W, cases: &[u8], at: usize) -> Result<usize> {
        let all = cases.len();
        if all - at < START {
            return Ok(all);
        }
        let room = three(cases, at + 1);
        let sheet = text_at(cases, at + START);
        let goal = text_at(cases, sheet.end);
        let workings = text_at(cases, goal.end);
        if room <= LINE_ROOM {
            check_in(
                out,
                &cases[sheet.start..sheet.end],
                &cases[goal.start..goal.end],
                &cases[workings.start..workings.end],
                room,
            )?;
        }
        Ok(workings.end)
    }
}
