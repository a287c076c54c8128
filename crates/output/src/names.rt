// The name at fault, as a part of the text where it stands.

ghost use Rattle.std.specs.Prelude.{◌≡◌};
ghost use Rattle.syntax.specs.Tokens.{spelling};
ghost use Rattle.mode_rules.specs.Checking.{name_span, text_at_fault, fault_name};

use syntax::{Refusal, Text, Verdict};

/// First byte and length of a name in its text.
#[derive(Clone, Copy)]
pub struct Span {
    pub at: usize,
    pub len: usize,
}

/// Where the name stands that a refusal hands back. For those that hand none back both numbers are 0, as C is told it.
pub fn name_span(refusal: Refusal) -> Span
    ensures { (result.at ≡ (name_span refusal).0) × (result.len ≡ (name_span refusal).1) }
{
    match refusal {
        Refusal::Undeclared { at, len, .. }
        | Refusal::OpenInput { at, len, .. }
        | Refusal::OpenOutput { at, len, .. } => Span { at, len },
        _ => Span { at: 0, len: 0 },
    }
}

// The part of a text from a place on, as far as the text goes.
fn part<'a>(text: &'a [u8], at: usize, len: usize) -> &'a [u8]
    ensures { result.now ≡ spelling text.now at len }
{
    let rest = &text[at.min(text.len())..];
    &rest[..len.min(rest.len())]
}

// The part of the text at fault.
fn part_at_fault<'a>(sheet: &'a [u8], goal: &'a [u8], text: Text, at: usize, len: usize) -> &'a [u8]
    ensures { result.now ≡ spelling (text_at_fault sheet.now goal.now text) at len }
{
    match text {
        Text::Sheet => part(sheet, at, len),
        Text::Goal => part(goal, at, len),
        Text::Trace | Text::Workings | Text::Neither => &sheet[..0],
    }
}

/// The name that a verdict on a sheet, or on a goal over it, hands back: for refusals 8 to 10 the predicate's, as the part of
/// the sheet or goal where it stands; otherwise an empty part.
#[tactic(auto, unfolding(mode_rules::specs::Checking::fault_name))]
pub fn fault_name<'a>(sheet: &'a [u8], goal: &'a [u8], verdict: Verdict) -> &'a [u8]
    ensures { result.now ≡ fault_name sheet.now goal.now verdict }
{
    match verdict {
        Ok(_) => &sheet[..0],
        Err(fault) => {
            let span = name_span(fault.refusal);
            part_at_fault(sheet, goal, fault.text, span.at, span.len)
        }
    }
}
