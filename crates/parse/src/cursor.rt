// Where the reader of a text stands: the next token, the refusals of the token at hand, and a variable held against one met before.
ghost use Rattle.std.specs.Prelude.{◌≡◌, ◌+◌, ◌≤◌, ◌<◌, ◌^◌, length};
ghost use Rattle.syntax.specs.Reading.{wrong_number, start_of};
ghost use Rattle.syntax.specs.Spans.{spanned, SpanInside};
ghost use Rattle.syntax.specs.Tokens.{spelling};
ghost use Rattle.syntax.specs.Terms.{same_name};
ghost use Rattle.parse.specs.Gives.{CursorInside, PastToken, Refused, ItemCount, full_number};

use crate::Parsed;
use syntax::{ParserState, Refusal, Token, TokenKind};
use words::packing::{span_at, span_length};
use words::texts::same_bytes;

/// The reader past the token at hand, with the same counts.
pub fn next(s: &[u8], st: ParserState) -> ParserState
    requires { CursorInside s.now st }
    ensures { PastToken s.now st result }
{
    let t = st.token;
    ParserState {
        token: lex::tokens::token_at(s, t.at + t.len),
        ..st
    }
}

/// The refusal of a token at hand that goes past a limit: 6.
pub fn beyond(st: ParserState) -> Refusal
    ensures { Refused st 6 result }
{
    Refusal::OverLimit(st.token.at)
}

/// The refusal of a token at hand that cannot stand here: 3 or 4 where it is no proper token, else 5.
#[tactic(auto, unfolding(syntax::specs::Reading::wrong_number))]
pub fn wrong(st: ParserState) -> Refusal
    ensures { Refused st (wrong_number st.token.kind) result }
{
    let at = st.token.at;
    match st.token.kind {
        TokenKind::NoToken => Refusal::NoToken(at),
        TokenKind::Overlong => Refusal::Overlong(at),
        _ => Refusal::Misplaced(at),
    }
}

/// Whether a variable's first occurrence, packed into the word `first`, is spelt as the token `t`.
pub fn same_span(s: &[u8], t: Token, first: u32) -> bool
    requires { (t.at + t.len ≤ length s.now) × SpanInside s.now first }
    ensures { result ≡ same_name (spanned s.now first) (spelling s.now t.at t.len) }
{
    span_length(first) == t.len && same_bytes(s, span_at(first), s, t.at, t.len)
}

/// The refusal where a list or body is full: 6 where the token at hand begins one thing more, else that of `wrong`.
pub fn full(st: ParserState) -> Refusal
    ensures { Refused st (full_number (Rattle.syntax.specs.Reading.begins (start_of st.token.kind)) st.token.kind) result }
{
    match st.token.kind {
        TokenKind::Variable | TokenKind::Numeral | TokenKind::Name => beyond(st),
        _ => wrong(st),
    }
}

/// What was read behind a comma, counted with the `by` things before it.
pub fn counted(more: Parsed, by: usize) -> Parsed
    requires { (more.items < 2 ^ 31) × (by < 2 ^ 31) }
    ensures { ItemCount more by result }
{
    Parsed {
        items: more.items + by,
        ..more
    }
}
