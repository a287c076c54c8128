// The fields of a record. A number is some bytes, lowest first; a text is its length in 3 bytes and then its bytes.
ghost use Rattle.std.specs.Prelude.{◌≡◌, ◌+◌, ◌≤◌, ◌<◌, length};
ghost use Rattle.engine_cases.specs.Rooms.{byte_values, two_at, three_at};

/// A text of the file: its bytes are those from `start` on and before `end`.
#[derive(Clone, Copy)]
pub struct Part {
    pub start: usize,
    pub end: usize,
}

/// The text whose length stands at place `at`; where the file ends before the text does, the empty text at the file's end.
pub fn text_at(cases: &[u8], at: usize) -> Part
    requires { at ≤ length cases.now }
    ensures { (at ≤ result.start) × ((result.start ≤ result.end) × (result.end ≤ length cases.now)) }
{
    let all = cases.len();
    if all - at < 3 {
        return Part {
            start: all,
            end: all,
        };
    }
    let start = at + 3;
    let len = three(cases, at);
    if all - start < len {
        return Part {
            start: all,
            end: all,
        };
    }
    Part {
        start,
        end: start + len,
    }
}

/// The number of two bytes, lowest first, at place `at`.
pub fn two(cases: &[u8], at: usize) -> usize
    requires { at + 2 ≤ length cases.now }
    ensures { result ≡ two_at cases.now at }
{
    u16::from_le_bytes([cases[at], cases[at + 1]]) as usize
}

/// The number of three bytes, lowest first, at place `at`.
pub fn three(cases: &[u8], at: usize) -> usize
    requires { at + 3 ≤ length cases.now }
    ensures { result ≡ three_at cases.now at }
{
    u32::from_le_bytes([cases[at], cases[at + 1], cases[at + 2], 0]) as usize
}

/// A byte as a number.
pub fn wide(byte: u8) -> usize
    ensures { (result ≡ byte) × (result < byte_values) }
{
    byte as usize
}
