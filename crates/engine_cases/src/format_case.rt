// `W`, a room in 3 bytes and a sheet, which is written afresh into a buffer of so many bytes, each with the value `FILLED` before. Printed is how many bytes
// behind what is written have that value still; then the line of the refusal, or what is written, the line of its check, and whether writing it afresh into
// a buffer of its length gives the same.
ghost use Rattle.std.specs.Prelude.{◌≡◌, ◌+◌, ◌≤◌, ◌<◌, length, IfOk};

use crate::case::Case;
use crate::numbers::print_number;
use crate::records::{text_at, three};
use output::printing::print_line;
use std::io::{Result, Write};

// The bytes of a record before its sheet: the first byte and the room.
const START: usize = 4;

// The most room that a case may ask for.
const FORMAT_ROOM: usize = 20000;

// What each byte of a buffer is before.
const FILLED: u8 = 170;

// A buffer as it is lent. Made in a function, an array of this size is known by its length alone.
fn filled() -> [u8; FORMAT_ROOM]
    ensures { 20000 ≡ length result }
{
    [FILLED; FORMAT_ROOM]
}

// Prints how many of some bytes are as they were lent.
fn print_kept<W: Write>(out: &mut W, bytes: &[u8]) -> Result<()> {
    out.write_all(b"kept")?;
    print_number(out, bytes.iter().filter(|&&byte| byte == FILLED).count())?;
    out.write_all(b"\n")
}

// Whether a sheet that was written afresh is written the same again.
fn is_same_again(written: &[u8]) -> bool {
    let mut buffer = filled();
    let room = written.len().min(FORMAT_ROOM);
    let again = &mut buffer[..room];
    match pilvaust::format(written, again) {
        Ok(length) => length == room && *again == *written,
        Err(_) => false,
    }
}

fn print_written<W: Write>(out: &mut W, written: &[u8]) -> Result<()> {
    out.write_all(written)?;
    let verdict = pilvaust::check(written);
    print_line(out, verdict, pilvaust::fault_name(written, b"", verdict))?;
    out.write_all(if is_same_again(written) {
        b"same\n"
    } else {
        b"other\n"
    })
}

// Writes a sheet afresh into a buffer of a room, and prints what comes of it.
fn format_in<W: Write>(out: &mut W, sheet: &[u8], room: usize) -> Result<()>
    requires { room ≤ 20000 }
{
    let mut buffer = filled();
    let text = &mut buffer[..room];
    match pilvaust::format(sheet, text) {
        Ok(length) => {
            print_kept(out, &text[length..])?;
            print_written(out, &text[..length])
        }
        Err(fault) => {
            print_kept(out, text)?;
            print_line(
                out,
                Err(fault),
                pilvaust::fault_name(sheet, b"", Err(fault)),
            )
        }
    }
}

/// The kind of case of the file `format`.
pub struct FormatCase;

impl Case for FormatCase {
    fn answer<W: Write>(out: &mut W, cases: &[u8], at: usize) -> Result<usize> {
        let all = cases.len();
        if all - at < START {
            return Ok(all);
        }
        let room = three(cases, at + 1);
        let part = text_at(cases, at + START);
        if room <= FORMAT_ROOM {
            format_in(out, &cases[part.start..part.end], room)?;
        }
        Ok(part.end)
    }
}
