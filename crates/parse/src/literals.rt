// Literals that are no brackets into the node table.

ghost use Rattle.std.specs.Prelude.{◌≡◌, ◌+◌, ◌-◌, ◌≤◌, ◌<◌, length, set, eqb, true, false};
ghost use Rattle.syntax.specs.Limits.{literals};
ghost use Rattle.syntax.specs.Tokens.{spelling, same_kind, name_kind, equals_kind};
ghost use Rattle.syntax.specs.Reading.{read_term, literal_with, read_plain};
ghost use Rattle.syntax.specs.Words.{node_words, equation_kind};
ghost use Rattle.parse.specs.Gives.{cursor_of, state_onward, CursorInside, RoomToRead, Gives, term_form, literal_form};
ghost use Rattle.parse.specs.Atoms.{atom_number, Alone};
ghost use Rattle.parse.specs.Counted.{with_literal};

use crate::Parsed;
use crate::cursor::{full, next, wrong};
use crate::terms::{read_atom, read_term};
use syntax::{
    CALL_KIND, EQUATION_KIND, FALSITY_KIND, LITERALS, NODE_WORDS, ParserState, Refusal, TRUTH_KIND,
    TokenKind,
};
use words::tables::put;
use words::texts::{is_fail, is_true};

// An equation whose left side was read: its first word, at `n`, and its right side, behind the `=` at hand.
fn read_right(
    s: &[u8],
    left: usize,
    st: ParserState,
    table: &mut [u32],
    n: usize,
    used: usize,
) -> Result<Parsed, Refusal>
    requires room_to_read { RoomToRead s.now st table.old used 0 }
    requires kind_value { (st.token.kind ≡ equals_kind) × (n < used) }
    ensures { Gives term_form s.now (state_onward s.now st) (set table.old n equation_kind) table.new used result
        (read_term left s.now (cursor_of s.now (set table.old n equation_kind) (state_onward s.now st))) }
{
    put(table, n, EQUATION_KIND);
    read_term(s, left, next(s, st), table, used)
}

// What an atom alone stands for: truth, falsehood or a call, as the number of that kind, which is the literal's first word in the table. `size` is how many
// words the atom takes.
fn atom_number(s: &[u8], at: usize, len: usize, size: usize) -> usize
    requires { at + len ≤ length s.now }
    ensures { result ≡ atom_number (eqb size node_words) (spelling s.now at len) }
{
    if size != NODE_WORDS {
        return CALL_KIND;
    }
    if is_true(s, at, len) {
        return TRUTH_KIND;
    }
    if is_fail(s, at, len) {
        return FALSITY_KIND;
    }
    CALL_KIND
}

// A literal that begins with a name.
fn read_named(
    s: &[u8],
    left: usize,
    st: ParserState,
    table: &mut [u32],
    n: usize,
) -> Result<Parsed, Refusal>
    requires room_to_read { RoomToRead s.now st table.old n 1 }
    requires kind_value { st.token.kind ≡ name_kind }
    ensures { Gives literal_form s.now st table.old table.new n result
        (literal_with left s.now (cursor_of s.now table.old st) true) }
{
    let r = read_atom(s, left, st, table, n + 1)?;
    if r.state.token.kind == TokenKind::Equals {
        return read_right(s, left, r.state, table, n, r.used);
    }
    Ok(alone(s, st, r, table, n))
}

// The atom at hand, which was read, as a literal of its own.
fn alone(s: &[u8], st: ParserState, r: Parsed, table: &mut [u32], n: usize) -> Parsed
    requires cursor_inside { CursorInside s.now st }
    requires n_bound { (n + 1 ≤ r.used) × (n + 1 ≤ length table.old) }
    ensures { Alone s.now st r table.old table.new n result }
{
    let number = atom_number(s, st.token.at, st.token.len, r.used - (n + 1));
    put(table, n, number);
    if number == CALL_KIND {
        return Parsed {
            used: r.used,
            items: 1,
            state: r.state,
        };
    }
    Parsed {
        used: n + 1,
        items: 1,
        state: r.state,
    }
}

// A literal that begins with a variable or a numeral, which is an equation.
fn read_equation(
    s: &[u8],
    left: usize,
    st: ParserState,
    table: &mut [u32],
    n: usize,
) -> Result<Parsed, Refusal>
    requires { RoomToRead s.now st table.old n 1 }
    ensures { Gives literal_form s.now st table.old table.new n result
        (literal_with left s.now (cursor_of s.now table.old st) false) }
{
    let r = read_term(s, left, st, table, n + 1)?;
    if r.state.token.kind == TokenKind::Equals {
        return read_right(s, left, r.state, table, n, r.used);
    }
    Err(wrong(r.state))
}

// A literal that is no bracket and is counted already.
fn read_one(
    s: &[u8],
    left: usize,
    st: ParserState,
    table: &mut [u32],
    n: usize,
) -> Result<Parsed, Refusal>
    requires { RoomToRead s.now st table.old n 1 }
    ensures { Gives literal_form s.now st table.old table.new n result
        (literal_with left s.now (cursor_of s.now table.old st) (same_kind st.token.kind name_kind)) }
{
    match st.token.kind {
        TokenKind::Name => read_named(s, left, st, table, n),
        _ => read_equation(s, left, st, table, n),
    }
}

// The reader with one literal more.
fn with_literal(st: ParserState) -> ParserState
    requires { st.literals < literals }
    ensures { result ≡ with_literal st }
{
    let mut more = st;
    more.literals += 1;
    more
}

/// A literal that is no bracket; a refusal where the clause or goal has as many as it may.
pub fn read_plain(
    s: &[u8],
    left: usize,
    st: ParserState,
    table: &mut [u32],
    n: usize,
) -> Result<Parsed, Refusal>
    requires { RoomToRead s.now st table.old n 1 }
    ensures { Gives literal_form s.now st table.old table.new n result
        (read_plain left s.now (cursor_of s.now table.old st)) }
{
    if st.literals < LITERALS {
        return read_one(s, left, with_literal(st), table, n);
    }
    Err(full(st))
}
