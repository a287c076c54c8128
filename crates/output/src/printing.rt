// Prints an answer as every program does, to any writer. After an error only a part may be written.

ghost use Rattle.std.specs.Prelude.{OnOk};
ghost use Rattle.std.specs.Io.KnownBytes.{Appends};
ghost use Rattle.output.specs.Lines.{line_of, name_word};
ghost use Rattle.output.specs.Reports.{report_line};
ghost use Rattle.output.specs.Prints.{printed_run};

use crate::results::Written;
use std::io::{self, Write};
use syntax::{Fault, Report, Verdict, WORD_BYTES};

// The most bytes of a verdict's words, of a verdict's line with a name of a sheet or goal, and of a report's line.
const VERDICT_BYTES: usize = 121;

const LINE_BYTES: usize = VERDICT_BYTES + 1 + WORD_BYTES + 1;

const REPORT_BYTES: usize = 53;

// A space and the name handed back, if there is one.
fn print_name<W: Write>(out: &mut W, name: &[u8]) -> io::Result<()>
    ensures { OnOk result (Appends (W.contents out.old) (W.contents out.new) (name_word name.now)) }
{
    if name.len() == 0 {
        return Ok(());
    }
    out.write_all(b" ")?;
    out.write_all(name)
}

// Prints the line of a verdict in parts, with a name of any length.
fn print_parts<W: Write>(out: &mut W, verdict: Verdict, name: &[u8]) -> io::Result<()>
    ensures { OnOk result (Appends (W.contents out.old) (W.contents out.new) (line_of verdict name.now)) }
{
    let mut words = [0u8; VERDICT_BYTES];
    let n = crate::verdicts::append_verdict(verdict, &mut words);
    out.write_all(&words[..n])?;
    print_name(out, name)?;
    out.write_all(b"\n")
}

/// Prints the line of a verdict, with the name handed back if there is one. The line is written in one call of `write_all`, unless the name is longer than
/// any of a sheet or goal.
pub fn print_line<W: Write>(out: &mut W, verdict: Verdict, name: &[u8]) -> io::Result<()>
    ensures { OnOk result (Appends (W.contents out.old) (W.contents out.new) (line_of verdict name.now)) }
{
    if WORD_BYTES < name.len() {
        return print_parts(out, verdict, name);
    }
    let mut line = [0u8; LINE_BYTES];
    let length = crate::lines::put_line(verdict, name, &mut line);
    out.write_all(&line[..length])
}

/// Prints the report of a run, the line that ends it.
pub fn print_report<W: Write>(out: &mut W, report: Report) -> io::Result<()>
    ensures { OnOk result (Appends (W.contents out.old) (W.contents out.new) (report_line report.kind report.answers report.steps)) }
{
    let mut line = [0u8; REPORT_BYTES];
    let n = crate::reports::append_report(report, &mut line);
    out.write_all(&line[..n])
}

/// Prints what a run gave: the lines of its answers, which it has written into the text, and its report; or the line of its refusal. More bytes are not
/// printed than the text has.
pub fn print_run<'a, W: Write>(
    out: &mut W,
    sheet: &'a [u8],
    goal: &'a [u8],
    run: Result<Written, Fault>,
    text: &[u8],
) -> io::Result<()>
    ensures { OnOk result (Appends (W.contents out.old) (W.contents out.new) (printed_run sheet.now goal.now run text.now)) }
{
    match run {
        Ok(written) => {
            out.write_all(&text[..written.bytes.min(text.len())])?;
            print_report(out, written.report)
        }
        Err(fault) => {
            let verdict = Err(fault);
            print_line(out, verdict, crate::names::fault_name(sheet, goal, verdict))
        }
    }
}
