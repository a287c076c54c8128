// The answers of reading, checking and running as numbers in a lent slice, for callers in other languages: as many as fit, and the rest of the slice stays
// as it was. `output::entries` does the same of a declaration.

ghost use Rattle.std.specs.Prelude.{◌≡◌, ◌++◌, ◌≤◌, length};
ghost use Rattle.std.proofs.lemmas.List.Edits.{sets};
ghost use Rattle.output.specs.Results.{run_of, bytes_of};
ghost use Rattle.output.specs.Numbers.{verdict_numbers, run_numbers, bytes_numbers, refusal_in};

use crate::faults::{FAULT, fault_numbers};
use crate::results::Written;
use crate::storing::put_numbers;
use syntax::{Fault, Verdict};

// Which of a fault's numbers is the refusal's, counted from 0.
const NUMBER: usize = 1;

// How many numbers a verdict's counts are: declarations and clauses.
const COUNTS: usize = 2;

// How many numbers a run's report is: kind of end, answers, steps, and the bytes written.
const REPORT: usize = 4;

/// Writes a fault and what follows it, and returns the refusal's number. No fault is eight zeros, and so the number 0.
pub fn put_both(fault: [usize; FAULT], rest: &[usize], out: &mut [usize]) -> usize
    requires { length rest.now ≤ 4 }
    ensures is { result ≡ refusal_in (fault ++ rest.now) }
    ensures numbers { out.new ≡ sets out.old 0 (fault ++ rest.now) }
{
    let past = put_numbers(&fault, out, 0);
    put_numbers(rest, out, past);
    fault[NUMBER]
}

/// Writes a verdict as ten numbers: its fault, then the counts of declarations and clauses. Returns the number of its refusal, 0 for none.
#[tactic(auto, unfolding(crate::specs::Numbers::verdict_numbers))]
pub fn put_verdict(verdict: Verdict, out: &mut [usize]) -> usize
    ensures is { result ≡ refusal_in (verdict_numbers verdict) }
    ensures numbers { out.new ≡ sets out.old 0 (verdict_numbers verdict) }
{
    match verdict {
        Ok(counts) => put_both([0; FAULT], &[counts.declarations, counts.clauses], out),
        Err(fault) => put_both(fault_numbers(fault), &[0; COUNTS], out),
    }
}

/// Writes the answer to a run as twelve numbers: its fault, then its kind of end, answers, steps and bytes written. Returns the number of its refusal, 0 for
/// none.
#[tactic(auto, unfolding(crate::specs::Numbers::run_numbers))]
pub fn put_run(run: Result<Written, Fault>, out: &mut [usize]) -> usize
    ensures is { result ≡ refusal_in (run_numbers (run_of run) (bytes_of run)) }
    ensures numbers { out.new ≡ sets out.old 0 (run_numbers (run_of run) (bytes_of run)) }
{
    match run {
        Ok(written) => {
            let report = written.report;
            let kind = crate::reports::kind_number(report.kind);
            let rest = [kind, report.answers, report.steps, written.bytes];
            put_both([0; FAULT], &rest, out)
        }
        Err(fault) => put_both(fault_numbers(fault), &[0; REPORT], out),
    }
}

/// The answer to a call that writes so many bytes; returned as above.
#[tactic(auto, unfolding(crate::specs::Numbers::bytes_numbers))]
pub fn put_bytes(answer: Result<usize, Fault>, out: &mut [usize]) -> usize
    ensures is { result ≡ refusal_in (bytes_numbers answer) }
    ensures numbers { out.new ≡ sets out.old 0 (bytes_numbers answer) }
{
    match answer {
        Ok(bytes) => put_both([0; FAULT], &[bytes], out),
        Err(fault) => put_both(fault_numbers(fault), &[0], out),
    }
}
