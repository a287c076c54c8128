// The search for a predicate's declaration in a list of entries: it ends at the first match and tells how many entries it compared (REQUESTS (vi)).

ghost use Rattle.std.specs.Prelude.{◌≡◌, ◌&&◌, ◌+◌, ◌*◌, ◌≤◌, ◌<◌, leb, length};
ghost use Rattle.syntax.specs.Terms.{same_bytes};
ghost use Rattle.syntax.specs.Tokens.{spelling};
ghost use Rattle.syntax.specs.Words.{declaration_size};
ghost use Rattle.marks.specs.Searching.{matches, stored_entry, stored_entries, whole_entries, look_up};

use syntax::DECLARATION_SIZE;
use words::tables::word_at;
use words::texts::same_bytes;

/// The place of the first match among the entries, from 0 on, and how many entries were compared, it included; or none, and how many there are.
#[derive(Clone, Copy)]
pub struct Lookup {
    pub place: Option<usize>,
    pub compared: usize,
}

// Whether a name stands in the text at a place, which may be any number: no sum of place and length is taken before both are known to lie within the
// text, so each test stands before the line that rests on it. The last byte is compared first, since names of a sheet often begin alike.
fn is_at(text: &[u8], place: usize, name: &[u8]) -> bool
    ensures { result ≡ (leb (place + length name.now) (length text.now) && same_bytes (spelling text.now place
        (length name.now)) name.now) }
{
    let size = text.len();
    let len = name.len();
    if size < len {
        return false;
    }
    let latest = size - len;
    if latest < place {
        return false;
    }
    if len == 0 {
        return true;
    }
    let rest = len - 1;
    let p = place + rest;
    if text[p] != name[rest] {
        return false;
    }
    same_bytes(text, place, name, 0, rest)
}

/// Whether the entry whose words stand at place `p` is of the predicate of a name and a number of arguments. One that reaches past the text's end is of none.
pub fn is_match(text: &[u8], entries: &[u32], p: usize, name: &[u8], arguments: usize) -> bool
    requires { p + 2 < length entries.now }
    ensures { result ≡ matches text.now name.now arguments (stored_entry entries.now p) }
{
    word_at(entries, p + 1) == name.len()
        && word_at(entries, p + 2) == arguments
        && is_at(text, word_at(entries, p), name)
}

/// The search for the predicate of a name and a number of arguments among the first `n` entries, four words each, as in `look_up`.
pub fn look_among(text: &[u8], entries: &[u32], n: usize, name: &[u8], arguments: usize) -> Lookup
    requires { n * declaration_size ≤ length entries.now }
    ensures { result ≡ look_up text.now name.now arguments (stored_entries entries.now 0 n) }
{
    for i in 0..n {
        let p = i * DECLARATION_SIZE;
        if is_match(text, entries, p, name, arguments) {
            return Lookup {
                place: Some(i),
                compared: i + 1,
            };
        }
    }
    Lookup {
        place: None,
        compared: n,
    }
}

/// The search for the predicate of a name and a number of arguments among as many entries as are whole in the lent words, four words an
/// entry: byte and length of its name, its number of arguments, and a word that is not looked at.
pub fn look_up(text: &[u8], entries: &[u32], name: &[u8], arguments: usize) -> Lookup
    ensures { result ≡ look_up text.now name.now arguments (whole_entries entries.now) }
{
    let n = entries.len() / DECLARATION_SIZE;
    look_among(text, entries, n, name, arguments)
}
