// Brackets, bodies and clauses into the node table.

ghost use Rattle.std.specs.Prelude.{◌≡◌, ◌+◌, ◌-◌, ◌≤◌, ◌<◌, ◌^◌, length, set};
ghost use Rattle.syntax.specs.Limits.{literals};
ghost use Rattle.syntax.specs.Tokens.{name_kind, open_kind, end_kind};
ghost use Rattle.syntax.specs.Reading.{begin, read_literal, read_to, read_body, read_clause};
ghost use Rattle.syntax.specs.Words.{clause_start, behind_kind, item_kinds, marker};
ghost use Rattle.parse.specs.Gives.{cursor_of, RoomToRead, Gives, literal_form, body_form, clause_form, side_form};
ghost use Rattle.parse.specs.Brackets.{read_side, bracket_at};
ghost use Rattle.parse.specs.Rules.{Ruled};

use crate::Parsed;
use crate::cursor::{beyond, counted, next, wrong};
use crate::literals::read_plain;
use crate::terms::read_atom;
use syntax::{
    BEHIND_KIND, BRACKETS, CLAUSE_START, LEFT_KIND, LITERALS, ParserState, RIGHT_KIND, Refusal,
    TokenKind,
};
use words::packing::pack_marker;
use words::tables::{put, put_three};

// One literal more than a body may have: the reading of a body counts down from it, and the count of literals stops that before it comes to 0.
const BODY_LITERALS: usize = LITERALS + 1;

// One literal. A bracket's sides are bodies, read with one bracket fewer left: these four functions call each other.
#[cycle(read_body_read_literal_read_side_read_sides)]
fn read_literal(
    s: &[u8],
    left: usize,
    st: ParserState,
    table: &mut [u32],
    n: usize,
) -> Result<Parsed, Refusal>
    requires { RoomToRead s.now st table.old n 1 }
    ensures { Gives literal_form s.now st table.old table.new n result
        (read_literal left s.now (cursor_of s.now table.old st)) }
{
    if st.token.kind != TokenKind::Open {
        return read_plain(s, left, st, table, n);
    }
    if left == 0 {
        return Err(beyond(st));
    }
    read_sides(s, left - 1, st, table, n)
}

// A bracket, which is at hand: its left side, its right side and its last word.
#[cycle(read_body_read_literal_read_side_read_sides)]
fn read_sides(
    s: &[u8],
    left: usize,
    st: ParserState,
    table: &mut [u32],
    n: usize,
) -> Result<Parsed, Refusal>
    requires room_to_read { RoomToRead s.now st table.old n 1 }
    requires kind_value { st.token.kind ≡ open_kind }
    ensures { Gives literal_form s.now st table.old table.new n result
        (bracket_at left s.now (cursor_of s.now table.old st)) }
{
    let past = next(s, st);
    let y = read_side(s, left, TokenKind::Semicolon, LEFT_KIND, past, table, n)?;
    let z = read_side(
        s,
        left,
        TokenKind::Close,
        RIGHT_KIND,
        y.state,
        table,
        y.used,
    )?;
    Ok(close_sides(z, y.items, table))
}

// A side of a bracket, up to a token of the kind `end`: its items, and before them, at `n`, the word of `kind`.
#[cycle(read_body_read_literal_read_side_read_sides)]
fn read_side(
    s: &[u8],
    left: usize,
    end: TokenKind,
    kind: usize,
    st: ParserState,
    table: &mut [u32],
    n: usize,
) -> Result<Parsed, Refusal>
    requires room_to_read { RoomToRead s.now st table.old n 2 }
    requires fact { (end ≡ end_kind → ⊥) × (kind < item_kinds) }
    ensures { Gives (side_form kind) s.now st table.old table.new n result
        (read_side left s.now end (cursor_of s.now table.old st)) }
{
    let r = read_body(s, left, end, BODY_LITERALS, st, table, n + 1)?;
    Ok(open_side(r, kind, table, n))
}

// Literals up to a token of the kind `end`, at most `k`.
#[cycle(read_body_read_literal_read_side_read_sides)]
fn read_body(
    s: &[u8],
    left: usize,
    end: TokenKind,
    k: usize,
    st: ParserState,
    table: &mut [u32],
    n: usize,
) -> Result<Parsed, Refusal>
    requires room_to_read { RoomToRead s.now st table.old n 1 }
    requires fact { end ≡ end_kind → ⊥ }
    ensures { Gives body_form s.now st table.old table.new n result
        (read_to left s.now end k (cursor_of s.now table.old st)) }
{
    if k == 0 {
        return Err(wrong(st));
    }
    let r = read_literal(s, left, st, table, n)?;
    let after = r.state;
    let kind = after.token.kind;
    if kind == TokenKind::Comma {
        let behind = next(s, after);
        let more = read_body(s, left, end, k - 1, behind, table, r.used)?;
        return Ok(counted(more, r.items));
    }
    if kind == end {
        return Ok(Parsed {
            state: next(s, after),
            ..r
        });
    }
    Err(wrong(after))
}

// A side that was read, with the word before it, which is stored at `n`.
fn open_side(r: Parsed, kind: usize, table: &mut [u32], n: usize) -> Parsed
    requires { (n < length table.old) × ((kind < item_kinds) × (r.items < 2 ^ 28)) }
    ensures { (result ≡ record { used = r.used; items = r.items + 1; state = r.state })
        × (table.new ≡ set table.old n (marker kind r.items)) }
{
    put(table, n, pack_marker(kind, r.items));
    Parsed {
        items: r.items + 1,
        ..r
    }
}

// A bracket whose right side was read behind so many items, with its last word, which is stored behind them.
fn close_sides(z: Parsed, items: usize, table: &mut [u32]) -> Parsed
    requires { (z.used < length table.old) × ((length table.old < 2 ^ 31) × ((z.items < 2 ^ 31) × (items < 2 ^ 31))) }
    ensures { (result ≡ record { used = z.used + 1; items = items + z.items + 1; state = z.state })
        × (table.new ≡ set table.old z.used behind_kind) }
{
    put(table, z.used, BEHIND_KIND);
    Parsed {
        used: z.used + 1,
        items: items + z.items + 1,
        state: z.state,
    }
}

/// The body of a clause or goal: literals up to the full stop, whose words are written from `n` on.
pub fn read_whole(s: &[u8], st: ParserState, table: &mut [u32], n: usize) -> Result<Parsed, Refusal>
    requires { RoomToRead s.now st table.old n 1 }
    ensures { Gives body_form s.now st table.old table.new n result
        (read_body s.now (cursor_of s.now table.old st)) }
{
    read_body(s, BRACKETS, TokenKind::Stop, BODY_LITERALS, st, table, n)
}

// The reader with no variable and no literal met.
fn fresh(st: ParserState) -> ParserState
    ensures { result ≡ Rattle.parse.specs.Gives.fresh st }
{
    ParserState {
        token: st.token,
        count: 0,
        literals: 0,
    }
}

// The body of a clause whose head was read, and then the clause's first words, at `n`; the `:-` is at hand.
fn read_rule(
    s: &[u8],
    st: ParserState,
    table: &mut [u32],
    n: usize,
    used: usize,
) -> Result<Parsed, Refusal>
    requires room_to_read { RoomToRead s.now st table.old used 1 }
    requires clause_start_bound { n + clause_start ≤ used }
    ensures { Ruled s.now st table.old table.new n used result }
{
    let past = next(s, st);
    let r = read_whole(s, past, table, used)?;
    put_three(table, n, r.used - n, r.state.count, r.items);
    Ok(Parsed { items: 1, ..r })
}

/// A clause, of which the head's name is at hand; its words are written from `n` on.
pub fn read_clause(
    s: &[u8],
    st: ParserState,
    table: &mut [u32],
    n: usize,
) -> Result<Parsed, Refusal>
    requires room_to_read { RoomToRead s.now (Rattle.parse.specs.Gives.fresh st) table.old n 4 }
    requires kind_value { st.token.kind ≡ name_kind }
    ensures { Gives clause_form s.now st table.old table.new n result
        (read_clause s.now (begin st.token)) }
{
    let begin = fresh(st);
    let r = read_atom(s, BRACKETS, begin, table, n + CLAUSE_START)?;
    let after = r.state;
    match after.token.kind {
        TokenKind::Stop => {
            let past = next(s, after);
            put_three(table, n, r.used - n, after.count, 0);
            Ok(Parsed {
                used: r.used,
                items: 1,
                state: past,
            })
        }
        TokenKind::Neck => read_rule(s, after, table, n, r.used),
        _ => Err(wrong(after)),
    }
}
