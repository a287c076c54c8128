// The checker (RULES, "Two programs and what they print"): reads a sheet on standard input, checks it and prints the answer. One byte more than the limit is
// read, so that a sheet past it is known by its length.

#![tactic(auto)]

ghost use Rattle.std.specs.Prelude.{OnOk};
ghost use Rattle.std.specs.Io.KnownBytes.{Appends};
ghost use Rattle.starred_cases.specs.Programs.{checker};

use output::printing::print_line;
use std::io::{self, Write};
use syntax::SHEET_BYTES;

// How many bytes are read at most.
const ROOM: usize = SHEET_BYTES + 1;

// Prints the answer to a sheet: all that the program prints, for any writer.
fn check_and_print<W: Write>(out: &mut W, sheet: &[u8]) -> io::Result<()>
    ensures { OnOk result (Appends (W.contents out.old) (W.contents out.new) (checker sheet.now)) }
{
    let verdict = pilvaust::check(sheet);
    let name = pilvaust::fault_name(sheet, b"", verdict);
    print_line(out, verdict, name)
}

fn main(rt: HostRuntime) -> io::Result<()> {
    let mut sheet = [0u8; ROOM];
    let n = input::read_full(&mut rt.stdin(), &mut sheet)?;
    check_and_print(&mut io::writer(&rt), &sheet[..n])
}
