// The line that ends a run, into a lent buffer.

ghost use Rattle.std.specs.Prelude.{◌≡◌, ◌+◌, ◌≤◌};
ghost use Rattle.words.specs.Buffers.{Appended, fitted_length, fitted};
ghost use Rattle.output.specs.Reports.{report_line, kind_number, kind_word};

use syntax::{Report, RunEnd};
use words::buffers::{append, append_byte, append_number};

/// The number of a kind of end, as `PILVAUST_END_WANTED` and its neighbours of include/pilvaust.h.
pub fn kind_number(kind: RunEnd) -> usize
    ensures { result ≡ kind_number kind }
{
    match kind {
        RunEnd::Wanted => 0,
        RunEnd::Done => 1,
        RunEnd::Steps => 2,
        RunEnd::Full => 3,
        RunEnd::Deep => 4,
    }
}

/// Writes the line that ends a run to the start of `out` and returns its length. Where the whole line does not fit, it writes nothing and returns 0. Either
/// way a caller may print the first so many bytes of `out`.
pub fn put_report(report: Report, out: &mut [u8]) -> usize
    ensures length { result ≡ fitted_length (report_line report.kind report.answers report.steps) out.old }
    ensures text { out.new ≡ fitted (report_line report.kind report.answers report.steps) out.old }
{
    let mut nothing = [0u8; 0];
    let report_length = append_report(report, &mut nothing);
    if report_length <= out.len() {
        append_report(report, out)
    } else {
        0
    }
}

/// Appends the line that ends a run to the start of a buffer, as the functions of `words::buffers` do; and so does the function below.
pub fn append_report(report: Report, out: &mut [u8]) -> usize
    ensures wrote { Appended out.old 0 (report_line report.kind report.answers report.steps) out.new result }
    ensures within { result ≤ 53 }
{
    let past_word = append(b"end ", out, 0);
    let past_kind = append_kind(report.kind, out, past_word);
    let past_answers = append_number(report.answers, out, past_kind);
    let past_steps = append_number(report.steps, out, past_answers);
    append_byte(b'\n', out, past_steps)
}

fn append_kind(kind: RunEnd, out: &mut [u8], at: usize) -> usize
    requires { at ≤ 4 }
    ensures wrote { Appended out.old at (kind_word kind) out.new result }
    ensures within { result ≤ at + 6 }
{
    match kind {
        RunEnd::Wanted => append(b"wanted", out, at),
        RunEnd::Done => append(b"done", out, at),
        RunEnd::Steps => append(b"steps", out, at),
        RunEnd::Full => append(b"full", out, at),
        RunEnd::Deep => append(b"deep", out, at),
    }
}
