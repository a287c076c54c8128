// The lexer: the token at a position of a text.

ghost use Rattle.std.specs.Prelude.{◌≡◌, ◌+◌, ◌≤◌, length};
ghost use Rattle.syntax.specs.Tokens.{token_at};

use crate::classes::{class, in_numeral, in_word};
use crate::scanning::{colon_token, skip, word_token};
use syntax::{Class, Token, TokenKind};

/// The first token from a position on, past blanks and comments, by the class of its first byte; `End` where only these are left.
pub fn token_at(s: &[u8], from: usize) -> Token
    requires { from ≤ length s.now }
    ensures { result ≡ token_at s.now from }
{
    let at = skip(s, from);
    let Some(first) = s.get(at) else {
        return Token {
            kind: TokenKind::End,
            at,
            len: 0,
        };
    };
    match class(*first) {
        Class::Lower => word_token(s, at, TokenKind::Name, in_word),
        Class::Upper => word_token(s, at, TokenKind::Variable, in_word),
        Class::Digit => word_token(s, at, TokenKind::Numeral, in_numeral),
        Class::Colon => colon_token(s, at),
        Class::Single(kind) => Token { kind, at, len: 1 },
        Class::Nothing | Class::Blank | Class::Percent => Token {
            kind: TokenKind::NoToken,
            at,
            len: 1,
        },
    }
}

/// The position just past the first token from a position on; at the end of the text, its length.
pub fn past_at(s: &[u8], from: usize) -> usize
    requires { from ≤ length s.now }
    ensures { result ≡ (token_at s.now from).at + (token_at s.now from).len }
{
    let token = token_at(s, from);
    token.at + token.len
}
