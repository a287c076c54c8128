// The class of a byte, and which bytes go on with a token (RULES, "How a sheet is spelt").

mod bytes;

ghost use Rattle.std.specs.Prelude.{◌≡◌};
ghost use Rattle.syntax.specs.Bytes.{class_of, in_word, in_numeral};

use bytes::CLASSES;
use syntax::Class;

/// The class of a byte. The table is a `static`: it is in memory once, and is not copied where it is used.
pub fn class(b: u8) -> Class
    ensures { result ≡ class_of b }
{
    CLASSES[b as usize]
}

/// Whether a byte goes on with a name or a variable: letters, digits, underscores.
#[tactic(auto, unfolding(syntax::specs::Bytes::in_word))]
pub fn in_word(b: u8) -> bool
    ensures { result ≡ in_word b }
{
    matches!(b, b'a'..=b'z' | b'A'..=b'Z' | b'_' | b'0'..=b'9')
}

/// Whether a byte goes on with a numeral: digits.
#[tactic(auto, unfolding(syntax::specs::Bytes::in_numeral))]
pub fn in_numeral(b: u8) -> bool
    ensures { result ≡ in_numeral b }
{
    matches!(b, b'0'..=b'9')
}
