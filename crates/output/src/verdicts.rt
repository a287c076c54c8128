// The words of a verdict, into a lent buffer. Each function appends as those of `words::buffers` do. Positions do not overflow: `refused workings` has 16
// bytes and a number with its space at most 21, so a verdict's words end at `line_words` at most. RULES words a refusal as five numbers, of which the first
// is its kind's, so kinds are numbers from `output::refusals::numbers` on.

ghost use Rattle.std.specs.Prelude.{◌+◌, ◌≤◌};
ghost use Rattle.words.specs.Buffers.{Appended, line_words};
ghost use Rattle.output.specs.Words.{text_word, verdict_words, five_words};

use syntax::{Five, Text, Verdict};
use words::buffers::{append, append_number};

/// Appends the words of a verdict at the start of `out` and returns the position behind them: `accepted` and two counts, or `refused`, the text and five
/// numbers.
pub fn append_verdict(verdict: Verdict, out: &mut [u8]) -> usize
    ensures wrote { Appended out.old 0 (verdict_words verdict) out.new result }
    ensures within { result ≤ line_words }
{
    match verdict {
        Ok(counts) => {
            let past_word = append(b"accepted", out, 0);
            let past_declarations = append_number(counts.declarations, out, past_word);
            append_number(counts.clauses, out, past_declarations)
        }
        Err(fault) => {
            let past_word = append(b"refused", out, 0);
            let past_text = append_text(fault.text, out, past_word);
            let numbers = crate::refusals::numbers(fault.refusal);
            append_five(numbers, out, past_text)
        }
    }
}

fn append_text(text: Text, out: &mut [u8], at: usize) -> usize
    requires { at ≤ 7 }
    ensures wrote { Appended out.old at (text_word text) out.new result }
    ensures within { result ≤ at + 9 }
{
    match text {
        Text::Sheet => append(b" sheet", out, at),
        Text::Goal => append(b" goal", out, at),
        Text::Trace => append(b" trace", out, at),
        Text::Workings => append(b" workings", out, at),
        Text::Neither => at,
    }
}

fn append_five(five: Five, out: &mut [u8], at: usize) -> usize
    requires { at ≤ 16 }
    ensures wrote { Appended out.old at (five_words five) out.new result }
    ensures within { result ≤ at + 105 }
{
    let past_number = append_number(five.number, out, at);
    let past_byte = append_number(five.byte, out, past_number);
    let past_clause = append_number(five.clause, out, past_byte);
    let past_literal = append_number(five.literal, out, past_clause);
    append_number(five.argument, out, past_literal)
}
