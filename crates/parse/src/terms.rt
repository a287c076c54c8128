// Terms into the node table. Reading one term and reading a list of terms call each other, with fewer brackets left.

ghost use Rattle.std.specs.Prelude.{◌≡◌, ◌+◌, ◌-◌, ◌≤◌, ◌<◌, ◌^◌, length, set};
ghost use Rattle.syntax.specs.Tokens.{name_kind};
ghost use Rattle.syntax.specs.Reading.{read_term, read_atom, read_arguments};
ghost use Rattle.syntax.specs.Words.{node_words, functor};
ghost use Rattle.parse.specs.Gives.{cursor_of, RoomToRead, Gives, term_form, terms_form, atom_form};

use crate::Parsed;
use crate::cursor::{beyond, counted, full, next, wrong};
use crate::leaves::{leaf, read_simple};
use syntax::{ARGUMENTS, NODE_WORDS, ParserState, Refusal, TokenKind};
use words::packing::pack_functor;
use words::tables::put_three;

/// A name with an optional bracketed list of terms; the name is at hand.
#[cycle(read_arguments_read_atom_read_term)]
pub fn read_atom(
    s: &[u8],
    left: usize,
    st: ParserState,
    table: &mut [u32],
    n: usize,
) -> Result<Parsed, Refusal>
    requires room_to_read { RoomToRead s.now st table.old n 0 }
    requires kind_value { st.token.kind ≡ name_kind }
    ensures { Gives atom_form s.now st table.old table.new n result
        (read_atom left s.now (cursor_of s.now table.old st)) }
{
    let past = next(s, st);
    if past.token.kind != TokenKind::Open {
        let what = pack_functor(0, st.token.len);
        return Ok(leaf(s, st, table, n, what));
    }
    if left == 0 {
        return Err(beyond(past));
    }
    let inner = next(s, past);
    let r = read_arguments(s, left - 1, ARGUMENTS, inner, table, n + NODE_WORDS)?;
    Ok(close(st, r, table, n))
}

// The node of the name at hand, whose arguments were read.
fn close(st: ParserState, r: Parsed, table: &mut [u32], n: usize) -> Parsed
    requires { (n + node_words ≤ length table.old) × ((st.token.at < 2 ^ 31)
        × ((st.token.len < 2 ^ 15) × ((r.items < 2 ^ 20) × ((n ≤ r.used) × (r.used < 2 ^ 31))))) }
    ensures { (result ≡ record { used = r.used; items = 1; state = r.state })
        × (table.new ≡ set (set (set table.old n (functor r.items st.token.len)) (n + 1) (r.used - n)) (n + 2) st.token.at) }
{
    let what = pack_functor(r.items, st.token.len);
    put_three(table, n, what, r.used - n, st.token.at);
    Parsed {
        used: r.used,
        items: 1,
        state: r.state,
    }
}

/// A term, whose first token is at hand.
#[cycle(read_arguments_read_atom_read_term)]
pub fn read_term(
    s: &[u8],
    left: usize,
    st: ParserState,
    table: &mut [u32],
    n: usize,
) -> Result<Parsed, Refusal>
    requires { RoomToRead s.now st table.old n 0 }
    ensures { Gives term_form s.now st table.old table.new n result
        (read_term left s.now (cursor_of s.now table.old st)) }
{
    match st.token.kind {
        TokenKind::Name => read_atom(s, left, st, table, n),
        _ => read_simple(s, st, table, n),
    }
}

// A list of terms after its opening bracket, of at most `k`.
#[cycle(read_arguments_read_atom_read_term)]
fn read_arguments(
    s: &[u8],
    left: usize,
    k: usize,
    st: ParserState,
    table: &mut [u32],
    n: usize,
) -> Result<Parsed, Refusal>
    requires { RoomToRead s.now st table.old n 0 }
    ensures { Gives terms_form s.now st table.old table.new n result
        (read_arguments (λ x. read_term left s.now x) s.now k (cursor_of s.now table.old st)) }
{
    if k == 0 {
        return Err(full(st));
    }
    // Copied here, where the call is made, and so not at each entry of the function.
    let own = st;
    let r = read_term(s, left, own, table, n)?;
    let after = r.state;
    match after.token.kind {
        TokenKind::Comma => {
            let behind = next(s, after);
            let more = read_arguments(s, left, k - 1, behind, table, r.used)?;
            Ok(counted(more, 1))
        }
        TokenKind::Close => Ok(Parsed {
            used: r.used,
            items: 1,
            state: next(s, after),
        }),
        _ => Err(wrong(after)),
    }
}
