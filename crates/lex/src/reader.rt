// A reader over a text, which hands out one token at a time. The work is in `first_token` and `past_tokens` of `lex::positions`.

ghost use Rattle.std.specs.Prelude.{◌≡◌};
ghost use Rattle.syntax.specs.Tokens.{token_at};
ghost use Rattle.lex.specs.Nth.{past_tokens, nth_token};

use crate::positions::{first_token, past_tokens};
use syntax::Token;

/// A text and a position in it, in bytes from 0 on.
#[derive(Clone, Copy)]
pub struct Reader<'a> {
    text: &'a [u8],
    at: usize,
}

impl<'a> Reader<'a> {
    /// A reader at the beginning of a text.
    pub fn new(text: &'a [u8]) -> Reader<'a>
        ensures { (result.text ≡ text.entry) × (result.at ≡ 0) }
    {
        Reader { text, at: 0 }
    }

    /// The first token from the reader's position on; the reader stays. At the end of the text it is the end.
    pub fn peek(self) -> Token
        ensures { result ≡ token_at self.entry.text.now self.entry.at }
    {
        first_token(self.text, self.at)
    }

    /// The reader moved past its next `n` tokens. At the end of the text it stays.
    pub fn moved(self, n: usize) -> Reader<'a>
        ensures { (result.text ≡ self.entry.text) × (result.at ≡ past_tokens n self.entry.text.now self.entry.at) }
    {
        let at = past_tokens(self.text, self.at, n);
        Reader { at, ..self }
    }
}

/// The token of a text before which `n` tokens stand; the end of the text where there are not so many.
pub fn nth_token(text: &[u8], n: usize) -> Token
    ensures { result ≡ nth_token text.now n }
{
    Reader::new(text).moved(n).peek()
}
