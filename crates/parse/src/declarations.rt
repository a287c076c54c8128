// Declarations into their table.

ghost use Rattle.std.specs.Prelude.{◌≡◌, ◌+◌, ◌≤◌, ◌<◌, ◌^◌, length};
ghost use Rattle.syntax.specs.Limits.{arguments};
ghost use Rattle.syntax.specs.Tokens.{same_kind, name_kind, open_kind};
ghost use Rattle.syntax.specs.Words.{mark_numbers, with_mark, declaration_size};
ghost use Rattle.syntax.specs.Reading.{begin, read_marks, marks_read, declaration_from, read_declaration};
ghost use Rattle.parse.specs.Gives.{CursorInside};
ghost use Rattle.parse.specs.Marks.{MarksGive, DeclarationGives};

use crate::Parsed;
use crate::cursor::{beyond, next, wrong};
use syntax::{ARGUMENTS, DECLARATION_SIZE, ParserState, Refusal, TokenKind};
use words::packing::{mark_number, pack_mark};
use words::tables::{put, put_three};
use words::texts::is_mode;

// A list of marks that was read: their numbers in one, the first mark's lowest; how many they are; and where the reader stands.
#[derive(Clone, Copy)]
struct MarkList {
    marks: usize,
    items: usize,
    state: ParserState,
}

// A list of marks after its opening bracket, at most `k`.
fn read_marks(s: &[u8], k: usize, st: ParserState) -> Result<MarkList, Refusal>
    requires cursor_inside { CursorInside s.now st }
    requires k_le_arguments { k ≤ arguments }
    ensures { MarksGive s.now st k result (read_marks s.now k (begin st.token)) }
{
    let Some(m) = mark_number(st.token.kind) else {
        return Err(wrong(st));
    };
    if k == 0 {
        return Err(beyond(st));
    }
    let after = next(s, st);
    match after.token.kind {
        TokenKind::Comma => {
            let behind = next(s, after);
            let more = read_marks(s, k - 1, behind)?;
            Ok(marked(m, more))
        }
        TokenKind::Close => Ok(MarkList {
            marks: m,
            items: 1,
            state: next(s, after),
        }),
        _ => Err(wrong(after)),
    }
}

// The marks behind a comma, and the one before it.
fn marked(m: usize, more: MarkList) -> MarkList
    requires marks_bound { (more.marks < 2 ^ 20) × (more.items < 2 ^ 20) }
    requires m_lt_mark_numbers { m < mark_numbers }
    ensures { (result.state ≡ more.state) × ((result.marks ≡ with_mark m more.marks) × (result.items ≡ more.items + 1)) }
{
    MarkList {
        marks: pack_mark(m, more.marks),
        items: more.items + 1,
        ..more
    }
}

// The marks behind a declaration's name, or none.
fn read_some_marks(s: &[u8], st: ParserState) -> Result<MarkList, Refusal>
    requires { CursorInside s.now st }
    ensures { MarksGive s.now st arguments result (marks_read s.now (begin st.token) (same_kind st.token.kind open_kind)) }
{
    if st.token.kind == TokenKind::Open {
        let inner = next(s, st);
        return read_marks(s, ARGUMENTS, inner);
    }
    Ok(MarkList {
        marks: 0,
        items: 0,
        state: st,
    })
}

// A declaration's name, marks and full stop.
fn read_declared(s: &[u8], st: ParserState, table: &mut [u32], n: usize) -> Result<Parsed, Refusal>
    requires cursor_inside { CursorInside s.now st }
    requires declaration_size_in_bounds { n + declaration_size ≤ length table.old }
    ensures { DeclarationGives s.now st table.old table.new n result (declaration_from s.now (begin st.token)
        (same_kind st.token.kind name_kind)) }
{
    let t = st.token;
    if t.kind != TokenKind::Name {
        return Err(wrong(st));
    }
    let past = next(s, st);
    let r = read_some_marks(s, past)?;
    let after = r.state;
    if after.token.kind != TokenKind::Stop {
        return Err(wrong(after));
    }
    let end = next(s, after);
    put_three(table, n, t.at, t.len, r.items);
    put(table, n + (DECLARATION_SIZE - 1), r.marks);
    Ok(Parsed {
        used: n + DECLARATION_SIZE,
        items: 1,
        state: end,
    })
}

/// A declaration, of which the `:-` is at hand; its words are written at `n`.
pub fn read_declaration(
    s: &[u8],
    st: ParserState,
    table: &mut [u32],
    n: usize,
) -> Result<Parsed, Refusal>
    requires cursor_inside { CursorInside s.now st }
    requires declaration_size_in_bounds { n + declaration_size ≤ length table.old }
    ensures { DeclarationGives s.now st table.old table.new n result
        (read_declaration s.now (begin st.token)) }
{
    let past = next(s, st);
    let t = past.token;
    if t.kind == TokenKind::Name && is_mode(s, t.at, t.len) {
        return read_declared(s, next(s, past), table, n);
    }
    Err(wrong(past))
}
