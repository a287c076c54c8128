// `D` and a sheet, of which is told whether runs over it write at most one line. Printed is `yes`; `no` and the numbers of the two clauses that speak
// against the sheet, or of one with a bracket and 0; or the line of the sheet's refusal.
ghost use Rattle.std.specs.Prelude.{◌≤◌, ◌<◌, length, IfOk};

use crate::case::Case;
use crate::numbers::print_number;
use crate::records::text_at;
use determinacy::Determinacy;
use std::io::{Result, Write};
use syntax::{Fault, Refusal, Text};

fn print_refusal<W: Write>(out: &mut W, sheet: &[u8], refusal: Refusal) -> Result<()> {
    let verdict = Err(Fault {
        text: Text::Sheet,
        refusal,
    });
    output::printing::print_line(out, verdict, pilvaust::fault_name(sheet, b"", verdict))
}

fn print_determinacy<W: Write>(out: &mut W, sheet: &[u8], told: Determinacy) -> Result<()> {
    match told {
        Determinacy::Yes => out.write_all(b"yes\n"),
        Determinacy::No { first, second } => {
            out.write_all(b"no")?;
            print_number(out, first)?;
            print_number(out, second)?;
            out.write_all(b"\n")
        }
        Determinacy::Refused(refusal) => print_refusal(out, sheet, refusal),
    }
}

/// The kind of case of the file `determinacy`.
pub struct DeterminacyCase;

impl Case for DeterminacyCase {
    fn answer<W: Write>(out: &mut W, cases: &[u8], at: usize) -> Result<usize> {
        let sheet = text_at(cases, at + 1);
        let text = &cases[sheet.start..sheet.end];
        print_determinacy(out, text, pilvaust::determinate(text))?;
        Ok(sheet.end)
    }
}
