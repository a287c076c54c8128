// Terms without arguments into the node table: variables and numerals, and the node of any token at hand.
ghost use Rattle.std.specs.Prelude.{◌≡◌, [], ◌∷◌, ℕ, ◌+◌, ◌-◌, ◌≤◌, ◌<◌, ◌^◌, length, set};
ghost use Rattle.syntax.specs.Limits.{sheet_bytes, variables};
ghost use Rattle.syntax.specs.Spans.{packed, met, SpansInside};
ghost use Rattle.syntax.specs.Terms.{term_of};
ghost use Rattle.syntax.specs.Tokens.{name_kind, variable_kind, numeral_kind, end_kind};
ghost use Rattle.syntax.specs.Reading.{is_anonymous, numeral_at, new_variable, read_variable, read_term};
ghost use Rattle.syntax.specs.Words.{node_words, term_words};
ghost use Rattle.parse.specs.Gives.{cursor_of, found, CursorInside, RoomToRead, Given, Gives, FoundAs, MetAs, term_form};

use crate::Parsed;
use crate::cursor::{beyond, next, same_span, wrong};
use syntax::{NODE_WORDS, ParserState, Refusal, TokenKind, VARIABLES};
use words::packing::{pack_functor, pack_span};
use words::tables::put_three;
use words::texts::{first_kept, is_anonymous};

// The number of the variable at hand among those met; none where it was not met before.
fn number_of(s: &[u8], st: ParserState, table: &[u32]) -> Option<usize>
    requires cursor_inside { CursorInside s.now st }
    requires variables_in_bounds { (variables ≤ length table.now) × SpansInside s.now (met table.now) st.count }
    ensures { FoundAs (found s.now table.now st) st.count result }
{
    let from = table.len() - VARIABLES;
    for i in 0..st.count {
        if same_span(s, st.token, table[from + i]) {
            return Some(i);
        }
    }
    None
}

// The number of the variable at hand among those met; none where it was not met before or is `_` alone.
fn known_number(s: &[u8], st: ParserState, table: &[u32]) -> Option<usize>
    requires cursor_inside { CursorInside s.now st }
    requires variables_in_bounds { (variables ≤ length table.now) × SpansInside s.now (met table.now) st.count }
    ensures { MetAs (is_anonymous s.now st.token) (found s.now table.now st) st.count result }
{
    if is_anonymous(s, st.token) {
        return None;
    }
    number_of(s, st, table)
}

// The reader with one variable more, first met here; its word is stored.
fn with_new(st: ParserState, table: &mut [u32]) -> ParserState
    requires at_le_sheet_bytes { (st.token.at ≤ sheet_bytes) × (st.token.len ≤ sheet_bytes) }
    requires count_lt_variables { (st.count < variables) × ((variables ≤ length table.old) × (length table.old < 2 ^ 31)) }
    ensures is { result ≡ record { token = st.token; count = st.count + 1; literals = st.literals } }
    ensures stored { table.new ≡ set table.old (length table.old - variables + st.count)
        (packed st.token.at st.token.len) }
{
    let p = table.len() - VARIABLES + st.count;
    table[p] = pack_span(st.token.at, st.token.len);
    ParserState {
        count: st.count + 1,
        ..st
    }
}

// A node without arguments, of the first word `what`, for the token at hand and at a byte of it; and the reader past it.
fn leaf_at(s: &[u8], st: ParserState, table: &mut [u32], n: usize, what: usize, at: usize) -> Parsed
    requires room_to_read { RoomToRead s.now st table.old n 0 }
    requires what_bound { (what < 2 ^ 32) × ((at < 2 ^ 32) × (st.token.kind ≡ end_kind → ⊥)) }
    ensures { Given s.now st table.old table.new n result (what ∷ node_words ∷ at ∷ []) 1
        (Rattle.syntax.specs.Reading.next s.now (cursor_of s.now table.old st)) }
{
    put_three(table, n, what, NODE_WORDS, at);
    Parsed {
        used: n + NODE_WORDS,
        items: 1,
        state: next(s, st),
    }
}

/// A node without arguments, of the first word `what`, for the token at hand and at its first byte; and the reader past it.
pub fn leaf(s: &[u8], st: ParserState, table: &mut [u32], n: usize, what: usize) -> Parsed
    requires room_to_read { RoomToRead s.now st table.old n 0 }
    requires what_bound { (what < 2 ^ 32) × (st.token.kind ≡ end_kind → ⊥) }
    ensures { Given s.now st table.old table.new n result (what ∷ node_words ∷ st.token.at ∷ []) 1
        (Rattle.syntax.specs.Reading.next s.now (cursor_of s.now table.old st)) }
{
    leaf_at(s, st, table, n, what, st.token.at)
}

// The numeral at hand, without its leading zeros.
fn read_numeral(s: &[u8], st: ParserState, table: &mut [u32], n: usize) -> Parsed
    requires room_to_read { RoomToRead s.now st table.old n 0 }
    requires kind_value { st.token.kind ≡ numeral_kind }
    ensures { Given s.now st table.old table.new n result
        (term_words (term_of (numeral_at s.now (cursor_of s.now table.old st)))) 1
        (Rattle.syntax.specs.Reading.next s.now (cursor_of s.now table.old st)) }
{
    let t = st.token;
    let p = first_kept(s, t.at, t.len);
    let kept = t.at + t.len - p;
    let what = pack_functor(0, kept);
    leaf_at(s, st, table, n, what, p)
}

// A variable that is met here first.
fn new_variable(s: &[u8], st: ParserState, table: &mut [u32], n: usize) -> Result<Parsed, Refusal>
    requires room_to_read { RoomToRead s.now st table.old n 0 }
    requires kind_value { st.token.kind ≡ variable_kind }
    ensures { Gives term_form s.now st table.old table.new n result
        (new_variable s.now (cursor_of s.now table.old st)) }
{
    let count = st.count;
    if count < VARIABLES {
        let new = with_new(st, table);
        return Ok(leaf(s, new, table, n, count));
    }
    Err(beyond(st))
}

// The variable at hand, met before or new.
fn read_variable(s: &[u8], st: ParserState, table: &mut [u32], n: usize) -> Result<Parsed, Refusal>
    requires room_to_read { RoomToRead s.now st table.old n 0 }
    requires kind_value { st.token.kind ≡ variable_kind }
    ensures { Gives term_form s.now st table.old table.new n result
        (read_variable s.now (cursor_of s.now table.old st)) }
{
    match known_number(s, st, table) {
        Some(v) => Ok(leaf(s, st, table, n, v)),
        None => new_variable(s, st, table, n),
    }
}

/// A term that begins with no name: a variable or a numeral; a refusal where the token at hand begins no term.
pub fn read_simple(
    s: &[u8],
    st: ParserState,
    table: &mut [u32],
    n: usize,
) -> Result<Parsed, Refusal>
    requires room_to_read { RoomToRead s.now st table.old n 0 }
    requires fact { st.token.kind ≡ name_kind → ⊥ }
    ensures { (most : ℕ) → Gives term_form s.now st table.old table.new n result
        (read_term most s.now (cursor_of s.now table.old st)) }
{
    match st.token.kind {
        TokenKind::Variable => read_variable(s, st, table, n),
        TokenKind::Numeral => Ok(read_numeral(s, st, table, n)),
        _ => Err(wrong(st)),
    }
}
