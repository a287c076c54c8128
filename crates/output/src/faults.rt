// A refusal as numbers, for callers in other languages: the text at fault, the refusal's kind and a name that is missing are numbers too.

ghost use Rattle.std.specs.Prelude.{◌≡◌};
ghost use Rattle.output.specs.FaultsNumbers.{text_number, fault_numbers};

use syntax::{Fault, Text};

/// How many numbers a fault has.
pub const FAULT: usize = 8;

// The number of the text at fault, as `PILVAUST_IN_SHEET` and its neighbours of include/pilvaust.h.
fn text_number(text: Text) -> usize
    ensures { result ≡ text_number text }
{
    match text {
        Text::Neither => 0,
        Text::Sheet => 1,
        Text::Goal => 2,
        Text::Trace => 3,
        Text::Workings => 4,
    }
}

/// A refusal as numbers, in the order in which programs print it: the text at fault, the five numbers of RULES, byte and length of the name handed back.
#[tactic(auto, unfolding(crate::specs::FaultsNumbers::fault_numbers))]
pub fn fault_numbers(fault: Fault) -> [usize; FAULT]
    ensures { result ≡ fault_numbers fault.text fault.refusal }
{
    let which = text_number(fault.text);
    let five = crate::refusals::numbers(fault.refusal);
    let name = crate::names::name_span(fault.refusal);
    [
        which,
        five.number,
        five.byte,
        five.clause,
        five.literal,
        five.argument,
        name.at,
        name.len,
    ]
}
