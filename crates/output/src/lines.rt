// The line of a verdict, into a lent buffer; `output::reports` does the same of a run's last line.

ghost use Rattle.std.specs.Prelude.{◌≡◌, ◌+◌, ◌≤◌, length};
ghost use Rattle.words.specs.Buffers.{Appended, fitted_length, fitted, line_words};
ghost use Rattle.output.specs.Lines.{line_of, name_word};

use crate::verdicts::append_verdict;
use syntax::Verdict;
use words::buffers::{append, append_byte};

/// Writes the line of a verdict, with the name handed back if there is one, to the start of `out`, and returns its length. Where the whole line does not fit,
/// it writes nothing and returns 0. Either way a caller may print the first so many bytes of `out`.
pub fn put_line(verdict: Verdict, name: &[u8], out: &mut [u8]) -> usize
    ensures within { length (line_of verdict name.now) ≤ line_words + 2 + length name.now }
    ensures length { result ≡ fitted_length (line_of verdict name.now) out.old }
    ensures text { out.new ≡ fitted (line_of verdict name.now) out.old }
{
    let mut nothing = [0u8; 0];
    let line_length = append_line(verdict, name, &mut nothing);
    if line_length <= out.len() {
        append_line(verdict, name, out)
    } else {
        0
    }
}

// Each function below appends as those of `words::buffers` do. Positions do not overflow: a verdict's words end at `line_words` at most, and then comes the
// name.

fn append_line(verdict: Verdict, name: &[u8], out: &mut [u8]) -> usize
    ensures wrote { Appended out.old 0 (line_of verdict name.now) out.new result }
    ensures within { result ≤ line_words + 2 + length name.now }
{
    let past_verdict = append_verdict(verdict, out);
    let past_name = append_name(name, out, past_verdict);
    append_byte(b'\n', out, past_name)
}

fn append_name(name: &[u8], out: &mut [u8], at: usize) -> usize
    requires { at ≤ line_words }
    ensures { Appended out.old at (name_word name.now) out.new result }
{
    if name.len() == 0 {
        return at;
    }
    let past_space = append_byte(b' ', out, at);
    append(name, out, past_space)
}
