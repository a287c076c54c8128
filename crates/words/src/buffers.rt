// Bytes into a lent buffer. Each function writes from a position on and returns the position past what it wrote; bytes at or past the buffer's end are left
// out but counted, so a buffer of no bytes measures. Nothing is allocated.

ghost use Rattle.std.specs.Prelude.{◌≡◌, [], ◌∷◌, ◌+◌, ◌^◌, ◌≤◌, ◌<◌, length};
ghost use Rattle.syntax.specs.Tokens.{spelling};
ghost use Rattle.words.specs.Buffers.{Appended, decimal, number, line_words};
ghost use Rattle.words.specs.Feeds.{past_lines};

/// Appends one byte.
pub fn append_byte(byte: u8, out: &mut [u8], at: usize) -> usize
    requires { at + 1 < 2 ^ 64 }
    ensures { Appended out.old at (byte ∷ []) out.new result }
{
    if at < out.len() {
        out[at] = byte;
    }
    at + 1
}

// Appends one item, of whatever type.
fn append_item<T: Copy>(item: T, out: &mut [T], at: usize) -> usize
    requires { at + 1 < 2 ^ 64 }
    ensures { Appended out.old at (item ∷ []) out.new result }
{
    if at < out.len() {
        out[at] = item;
    }
    at + 1
}

/// Appends all items of a slice, of whatever type. One by one: so a program in C that links the library needs no `memcpy` for it.
pub fn append_all<T: Copy>(items: &[T], out: &mut [T], at: usize) -> usize
    requires { at + length items.now < 2 ^ 64 }
    ensures { Appended out.old at items.now out.new result }
{
    let mut past = at;
    for i in 0..items.len() {
        past = append_item(items[i], out, past);
    }
    past
}

/// Appends the `len` bytes of a text that begin at `from`.
pub fn append_part(text: &[u8], from: usize, len: usize, out: &mut [u8], at: usize) -> usize
    requires { (from + len ≤ length text.now) × (at + len < 2 ^ 64) }
    ensures { Appended out.old at (spelling text.now from len) out.new result }
{
    append_all(&text[from..from + len], out, at)
}

/// Appends a number in decimal: the digits of `n / 10`, then the last one.
pub fn append_decimal(n: usize, out: &mut [u8], at: usize) -> usize
    requires { at + 21 < 2 ^ 64 }
    ensures { Appended out.old at (decimal n) out.new result }
{
    if n < 10 {
        return append_byte(b'0' + n as u8, out, at);
    }
    let past = append_decimal(n / 10, out, at);
    append_byte(b'0' + (n % 10) as u8, out, past)
}

/// Appends a space and a number in decimal, within a line that tells a verdict, which has at most `line_words` bytes.
pub fn append_number(n: usize, out: &mut [u8], at: usize) -> usize
    requires { at ≤ line_words }
    ensures wrote { Appended out.old at (number n) out.new result }
    ensures within { result ≤ at + 21 }
{
    let past_space = append_byte(b' ', out, at);
    append_decimal(n, out, past_space)
}

/// Appends all bytes of a text, of whatever length, within a line that tells a verdict or just behind it.
pub fn append(text: &[u8], out: &mut [u8], at: usize) -> usize
    requires { at ≤ line_words + 1 }
    ensures { Appended out.old at text.now out.new result }
{
    append_all(text, out, at)
}

/// The position behind the first `lines` lines of a text: 0 for no lines, and the text's length where it has fewer line feeds.
pub fn past_lines(text: &[u8], lines: usize) -> usize
    ensures { result ≡ past_lines lines text.now }
{
    let mut left = lines;
    for (at, &byte) in text.iter().enumerate() {
        if left == 0 {
            return at;
        }
        if byte == b'\n' {
            left -= 1;
        }
    }
    text.len()
}
