// Reading, checking, running and writing afresh for programs in other languages: include/pilvaust.h. Each answer is a list of numbers (`Told` of specs/
// here; `Numbers` and `EntriesNumbers` of output/specs), of which a lent slice takes as many as fit; the rest of the slice stays as it was.

#![tactic(auto)]

ghost use Rattle.std.specs.Prelude.{◌≡◌, length, get_or};
ghost use Rattle.std.proofs.lemmas.List.Edits.{sets};
ghost use Rattle.syntax.specs.Verdicts.{read_verdict, entry_at};
ghost use Rattle.mode_rules.specs.Checking.{check_verdict, check_goal_verdict};
ghost use Rattle.machine.specs.Runs.{run_outcome, run_text};
ghost use Rattle.machine.specs.Traces.{traced_outcome};
ghost use Rattle.output.specs.EntriesNumbers.{version, entry_numbers};
ghost use Rattle.output.specs.Numbers.{verdict_numbers, bytes_numbers, refusal_in};
ghost use Rattle.format_rules.specs.Formatting.{formatting, format_answer, format_buffer};
ghost use Rattle.machine.specs.Determinacy.{judged};
ghost use Rattle.marks.specs.Searching.{whole_entries, look_up};
ghost use Rattle.determinacy.specs.Told.{told};
ghost use Rattle.derivations.specs.Workings.{workings_outcome, workings_answer, workings_text};
ghost use Rattle.exports.specs.Runs.{asking, outcome_numbers};
ghost use Rattle.exports.specs.Told.{lookup_numbers, determinacy_numbers};

use determinacy::Determinacy;
use marks::lookup::Lookup;
use output::faults::{FAULT, fault_numbers};
use output::numbers::put_both;
use output::storing::put_numbers;
use syntax::{Fault, RunSettings, Text};

/// The version of the functions below and of their numbers, which has to be `PILVAUST_VERSION` of the header.
#[unsafe(no_mangle)]
pub extern "C" fn pilvaust_version() -> usize
    ensures { result ≡ version }
{
    output::entries::version_number()
}

/// Reads a sheet, refusals 2 to 7: writes the numbers of the verdict and returns that of its refusal, 0 where the sheet is accepted.
#[unsafe(no_mangle)]
pub extern "C" fn pilvaust_read(sheet: &[u8], numbers: &mut [usize]) -> usize
    ensures is { result ≡ refusal_in (verdict_numbers (read_verdict sheet.now)) }
    ensures numbers { numbers.new ≡ sets numbers.old 0 (verdict_numbers (read_verdict sheet.now)) }
{
    output::numbers::put_verdict(pilvaust::read(sheet), numbers)
}

/// Checks a sheet, refusals 2 to 10 and 16: writes the numbers of the verdict and returns that of its refusal, 0 where the sheet is accepted.
#[unsafe(no_mangle)]
pub extern "C" fn pilvaust_check(sheet: &[u8], numbers: &mut [usize]) -> usize
    ensures is { result ≡ refusal_in (verdict_numbers (check_verdict sheet.now)) }
    ensures numbers { numbers.new ≡ sets numbers.old 0 (verdict_numbers (check_verdict sheet.now)) }
{
    output::numbers::put_verdict(pilvaust::check(sheet), numbers)
}

/// Checks a goal over a sheet, the sheet first: writes the numbers of the verdict and returns that of its refusal, 0 where both are accepted.
#[unsafe(no_mangle)]
pub extern "C" fn pilvaust_check_goal(sheet: &[u8], goal: &[u8], numbers: &mut [usize]) -> usize
    ensures is { result ≡ refusal_in (verdict_numbers (check_goal_verdict sheet.now goal.now)) }
    ensures numbers { numbers.new ≡ sets numbers.old 0
        (verdict_numbers (check_goal_verdict sheet.now goal.now)) }
{
    output::numbers::put_verdict(pilvaust::check_goal(sheet, goal), numbers)
}

/// Writes byte and length of the name and number of arguments of declaration `i`, counted from 0, of a sheet that reading accepts. Returns how many numbers
/// these are, 0 where there is no such declaration.
#[unsafe(no_mangle)]
pub extern "C" fn pilvaust_entry(sheet: &[u8], i: usize, numbers: &mut [usize]) -> usize
    ensures is { result ≡ length (entry_numbers (entry_at sheet.now i)) }
    ensures numbers { numbers.new ≡ sets numbers.old 0 (entry_numbers (entry_at sheet.now i)) }
{
    output::entries::put_entry(pilvaust::entry(sheet, i), numbers)
}

// What the search tells, as numbers; the first is returned.
fn put_lookup(found: Lookup, numbers: &mut [usize]) -> usize
    ensures is { result ≡ get_or (lookup_numbers found) 0 0 }
    ensures numbers { numbers.new ≡ sets numbers.old 0 (lookup_numbers found) }
{
    match found.place {
        Some(place) => {
            put_numbers(&[1, place, found.compared], numbers, 0);
            1
        }
        None => {
            put_numbers(&[0, 0, found.compared], numbers, 0);
            0
        }
    }
}

/// The predicate of a name and a number of arguments, looked for in a list of entries of a text, four words each: byte and length of its name, its number of
/// arguments, and one that is not looked at. The search's numbers, and returned 1 where an entry matches, else 0.
#[unsafe(no_mangle)]
pub extern "C" fn pilvaust_look_up(
    text: &[u8],
    entries: &[u32],
    name: &[u8],
    arguments: usize,
    numbers: &mut [usize],
) -> usize
    ensures is { result ≡ get_or (lookup_numbers (look_up text.now name.now arguments (whole_entries entries.now))) 0 0 }
    ensures numbers { numbers.new ≡ sets numbers.old 0 (lookup_numbers (look_up text.now name.now arguments (whole_entries entries.now))) }
{
    put_lookup(pilvaust::look_up(text, entries, name, arguments), numbers)
}

// What the test tells, as numbers; that of the refusal is returned.
fn put_determinacy(answer: Determinacy, numbers: &mut [usize]) -> usize
    ensures is { result ≡ refusal_in (determinacy_numbers answer) }
    ensures numbers { numbers.new ≡ sets numbers.old 0 (determinacy_numbers answer) }
{
    match answer {
        Determinacy::Yes => put_both([0; FAULT], &[1, 0, 0], numbers),
        Determinacy::No { first, second } => put_both([0; FAULT], &[0, first, second], numbers),
        Determinacy::Refused(refusal) => {
            let fault = Fault {
                text: Text::Sheet,
                refusal,
            };
            put_both(fault_numbers(fault), &[0, 0, 0], numbers)
        }
    }
}

/// The test whether a run over a sheet writes at most one line: its numbers, and returned the number of the sheet's refusal, 0 where it is accepted.
#[unsafe(no_mangle)]
pub extern "C" fn pilvaust_determinate(sheet: &[u8], numbers: &mut [usize]) -> usize
    ensures is { result ≡ refusal_in (determinacy_numbers (told (judged sheet.now))) }
    ensures numbers { numbers.new ≡ sets numbers.old 0 (determinacy_numbers (told (judged sheet.now))) }
{
    put_determinacy(pilvaust::determinate(sheet), numbers)
}

// What a run is asked for, from the three parameters that C passes.
fn settings(allowance: usize, wanted: usize, stored: bool) -> RunSettings
    ensures { result ≡ asking allowance wanted stored }
{
    RunSettings {
        allowance,
        wanted,
        stored,
    }
}

/// Runs a goal over a sheet, with at most `allowance` steps and `wanted` answers, whose lines are written into the text; `stored` is the mark for a sheet
/// stored earlier. Writes the numbers of the run and returns that of its refusal, 0 where it ended.
#[unsafe(no_mangle)]
pub extern "C" fn pilvaust_run(
    sheet: &[u8],
    goal: &[u8],
    allowance: usize,
    wanted: usize,
    stored: bool,
    text: &mut [u8],
    numbers: &mut [usize],
) -> usize
    ensures is { result ≡ refusal_in (outcome_numbers (run_outcome sheet.now goal.now (asking allowance wanted stored)
        (length text.old))) }
    ensures text { text.new ≡ sets text.old 0 (run_text (run_outcome sheet.now goal.now
        (asking allowance wanted stored) (length text.old))) }
    ensures numbers { numbers.new ≡ sets numbers.old 0
        (outcome_numbers (run_outcome sheet.now goal.now (asking allowance wanted stored) (length text.old))) }
{
    let asked = settings(allowance, wanted, stored);
    output::numbers::put_run(pilvaust::run_written(sheet, goal, asked, text), numbers)
}

/// Runs a goal over a sheet as `pilvaust_run` does, with the facts of a recorded session behind the sheet's clauses; an empty trace is none.
#[unsafe(no_mangle)]
pub extern "C" fn pilvaust_run_traced(
    sheet: &[u8],
    goal: &[u8],
    trace: &[u8],
    allowance: usize,
    wanted: usize,
    stored: bool,
    text: &mut [u8],
    numbers: &mut [usize],
) -> usize
    ensures is { result ≡ refusal_in (outcome_numbers (traced_outcome sheet.now goal.now trace.now
        (asking allowance wanted stored) (length text.old))) }
    ensures text { text.new ≡ sets text.old 0 (run_text (traced_outcome sheet.now goal.now
        trace.now (asking allowance wanted stored) (length text.old))) }
    ensures numbers { numbers.new ≡ sets numbers.old 0 (outcome_numbers (traced_outcome sheet.now
        goal.now trace.now (asking allowance wanted stored) (length text.old))) }
{
    let asked = settings(allowance, wanted, stored);
    output::numbers::put_run(
        pilvaust::run_traced(sheet, goal, trace, asked, text),
        numbers,
    )
}

/// Writes an accepted sheet afresh, in its one spelling, at the beginning of `out`: writes the numbers of the answer, the length behind the fault, and returns
/// that of the refusal, 0 where the sheet is written. Refusals are the sheet's, 2 to 10 and 16, then 11.
#[unsafe(no_mangle)]
pub extern "C" fn pilvaust_format(sheet: &[u8], out: &mut [u8], numbers: &mut [usize]) -> usize
    ensures is { result ≡ refusal_in (bytes_numbers (format_answer (formatting (length out.old) sheet.now))) }
    ensures out { out.new ≡ format_buffer (formatting (length out.old) sheet.now) out.old }
    ensures numbers { numbers.new ≡ sets numbers.old 0
        (bytes_numbers (format_answer (formatting (length out.old) sheet.now))) }
{
    output::numbers::put_bytes(pilvaust::format(sheet, out), numbers)
}

/// Checks the workings of a goal, whose answer's line is written to `text` where they are accepted: writes the numbers of the fault and how many bytes the line
/// has, and returns the number of the refusal, 0 where they are accepted.
#[unsafe(no_mangle)]
pub extern "C" fn pilvaust_check_workings(
    sheet: &[u8],
    goal: &[u8],
    workings: &[u8],
    text: &mut [u8],
    numbers: &mut [usize],
) -> usize
    ensures is { result ≡ refusal_in (bytes_numbers (workings_answer (workings_outcome sheet.now goal.now workings.now (length text.old)))) }
    ensures text { text.new ≡ sets text.old 0 (workings_text (workings_outcome sheet.now goal.now workings.now (length text.old))) }
    ensures numbers { numbers.new ≡ sets numbers.old 0
        (bytes_numbers (workings_answer (workings_outcome sheet.now goal.now workings.now (length text.old)))) }
{
    output::numbers::put_bytes(
        pilvaust::check_workings(sheet, goal, workings, text),
        numbers,
    )
}
