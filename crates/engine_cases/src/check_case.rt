// `C` and a sheet, which is checked, or `K`, a sheet and a goal, which is checked over it. What the checker would print is printed.
ghost use Rattle.std.specs.Prelude.{◌≤◌, ◌<◌, length, IfOk};

use crate::case::Case;
use crate::records::text_at;
use output::printing::print_line;
use pilvaust::fault_name;
use std::io::{Result, Write};

// The first byte of a record that has a sheet alone.
const SHEET: u8 = b'C';

/// The kind of case of the file `check`.
pub struct CheckCase;

impl Case for CheckCase {
    fn answer<W: Write>(out: &mut W, cases: &[u8], at: usize) -> Result<usize> {
        let sheet = text_at(cases, at + 1);
        let text = &cases[sheet.start..sheet.end];
        if cases[at] == SHEET {
            let verdict = pilvaust::check(text);
            print_line(out, verdict, fault_name(text, b"", verdict))?;
            return Ok(sheet.end);
        }
        let goal = text_at(cases, sheet.end);
        let asked = &cases[goal.start..goal.end];
        let verdict = pilvaust::check_goal(text, asked);
        print_line(out, verdict, fault_name(text, asked, verdict))?;
        Ok(goal.end)
    }
}
