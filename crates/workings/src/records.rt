// The records of workings, one at a time.

ghost use Rattle.std.specs.Prelude.{◌≡◌, ◌+◌, ◌*◌, ◌≤◌, length, get_or, drop};
ghost use Rattle.derivations.specs.Workings.{records_from, record_bytes};
ghost use Rattle.workings.specs.Records.{first_choice};

use derivations::Choice;

// The kinds of record. They are bytes of the workings, and here alone: past `record_at` a kind is a variant of `Choice`.
const CLAUSE_KIND: u8 = 1;

const LEFT_KIND: u8 = 2;

const RIGHT_KIND: u8 = 3;

// A clause number of two bytes, low byte first.
fn number_at(workings: &[u8], at: usize) -> u16
    requires { at + 2 ≤ length workings.now }
    ensures { result ≡ get_or workings.now at 0 + 256 * get_or workings.now (at + 1) 0 }
{
    u16::from_le_bytes([workings[at], workings[at + 1]])
}

/// What the record that begins at a byte says; none where the workings end there or the record is malformed.
pub fn record_at(workings: &[u8], at: usize) -> Option<Choice>
    requires { at ≤ length workings.now }
    ensures { result ≡ first_choice (records_from 0 (drop at workings.now)) }
{
    let left = workings.len() - at;
    if left == 0 {
        return None;
    }
    match workings[at] {
        CLAUSE_KIND => {
            if left < 3 {
                return None;
            }
            let number = number_at(workings, at + 1);
            Some(Choice::Numbered(number as usize))
        }
        LEFT_KIND => Some(Choice::Left),
        RIGHT_KIND => Some(Choice::Right),
        _ => None,
    }
}

/// How many bytes a record has, that of the kind too.
pub fn record_bytes(choice: Choice) -> usize
    ensures { result ≡ record_bytes choice }
{
    match choice {
        Choice::Numbered(_) => 3,
        Choice::Left | Choice::Right => 1,
    }
}
