// The token at a position of a text, and the position past some tokens.

ghost use Rattle.std.specs.Prelude.{◌≡◌};
ghost use Rattle.syntax.specs.Tokens.{token_at};
ghost use Rattle.lex.specs.Nth.{past_tokens};

use crate::tokens::{past_at, token_at};
use syntax::{Token, TokenKind};

/// The first token from a position on. Past the end of the text it is the end, at that position.
pub fn first_token(text: &[u8], at: usize) -> Token
    ensures { result ≡ token_at text.now at }
{
    if text.len() < at {
        return Token {
            kind: TokenKind::End,
            at,
            len: 0,
        };
    }
    token_at(text, at)
}

/// The position just past the first `n` tokens from a position on. At the end of the text, and past it, the position stays.
pub fn past_tokens(text: &[u8], from: usize, n: usize) -> usize
    ensures { result ≡ past_tokens n text.now from }
{
    if text.len() < from {
        return from;
    }
    let mut at = from;
    for _ in 0..n {
        let past = past_at(text, at);
        if past == at {
            return at;
        }
        at = past;
    }
    at
}
