// Blanks and comments before a token, and the tokens of several bytes.

ghost use Rattle.std.specs.Prelude.{◌≡◌, ℕ, Bool, suc, ◌+◌, ◌≤◌, ◌<◌, length, drop};
ghost use Rattle.syntax.specs.declared.Class.TheVariants.{Colon};
ghost use Rattle.syntax.specs.Tokens.{run_length, word, token_of_class, token_place};
ghost use Rattle.lex.specs.Runs.{Decides};

use crate::classes::class;
use syntax::{Class, Token, TokenKind, WORD_BYTES};

const LINE_FEED: u8 = b'\n';

const DASH: u8 = b'-';

/// Where the first token from a position on begins, past blanks and comments; the length where only these are left.
pub fn skip(s: &[u8], from: usize) -> usize
    requires { from ≤ length s.now }
    ensures { result ≡ token_place s.now from }
{
    let mut at = from;
    // Two loops with labels, as REQUESTS asks: a turn passes one blank or one comment, and both are left at the token's first byte, or at the end.
    'token: loop {
        if s.len() <= at {
            break 'token;
        }
        match class(s[at]) {
            Class::Blank => {}
            Class::Percent => 'comment: loop {
                at += 1;
                if s.len() <= at {
                    break 'token;
                }
                if s[at] == LINE_FEED {
                    break 'comment;
                }
            },
            _ => break 'token,
        }
        at += 1;
    }
    at
}

/// Where the bytes that pass a test end, from a position on: those of a word or of a numeral.
pub fn run_end<F: Fn(u8) -> bool>(s: &[u8], from: usize, goes_on: F) -> usize
    requires from_in_bounds { from ≤ length s.now }
    requires callable { F.IsAlwaysCallable goes_on }
    ensures within { (from ≤ result) × (result ≤ length s.now) }
    ensures run { (test : ℕ → Bool) → Decides (F.post goes_on) test → result ≡ from + run_length test (drop from s.now) }
{
    for end in from..s.len() {
        if !goes_on(s[end]) {
            return end;
        }
    }
    s.len()
}

/// The name, variable or numeral that begins at a position and goes on with the bytes that pass a test; `Overlong` where it has more than `WORD_BYTES` bytes.
pub fn word_token<F: Fn(u8) -> bool>(s: &[u8], at: usize, kind: TokenKind, goes_on: F) -> Token
    requires at_in_bounds { at < length s.now }
    requires callable { F.IsAlwaysCallable goes_on }
    ensures { (test : ℕ → Bool) → Decides (F.post goes_on) test → result ≡ word kind at (suc (run_length test (drop (at + 1) s.now))) }
{
    let len = run_end(s, at + 1, goes_on) - at;
    let kind = if len <= WORD_BYTES {
        kind
    } else {
        TokenKind::Overlong
    };
    Token { kind, at, len }
}

/// What begins with a colon: the pair with its dash, or no token.
pub fn colon_token(s: &[u8], at: usize) -> Token
    requires { at < length s.now }
    ensures { result ≡ token_of_class Colon at (drop (at + 1) s.now) }
{
    match s.get(at + 1) {
        Some(next) if *next == DASH => Token {
            kind: TokenKind::Neck,
            at,
            len: 2,
        },
        _ => Token {
            kind: TokenKind::NoToken,
            at,
            len: 1,
        },
    }
}
