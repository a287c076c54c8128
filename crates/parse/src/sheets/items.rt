// The items of a sheet one after another, and goals.
ghost use Rattle.std.specs.Prelude.{◌≡◌, ◌+◌, ◌-◌, ◌*◌, ◌≤◌, ◌<◌, ◌^◌, length};
ghost use Rattle.syntax.specs.Limits.{sheet_bytes, variables, declarations, clauses};
ghost use Rattle.syntax.specs.Tokens.{token_at, name_kind};
ghost use Rattle.syntax.specs.Reading.{begin, read_sheet, read_goal};
ghost use Rattle.syntax.specs.Words.{node_words, declaration_size, declared_words, sheet_words};
ghost use Rattle.parse.specs.Gives.{fresh, CursorInside, RoomToRead, Gives, clause_form};
ghost use Rattle.parse.specs.Marks.{DeclarationGives};
ghost use Rattle.parse.specs.Sheets.{declaration_next, clause_next, Parses, GoalParses};

use crate::Parsed;
use crate::clauses::{read_clause, read_whole};
use crate::cursor::{beyond, wrong};
use crate::declarations::read_declaration;
use crate::sheets::{SheetFault, SheetParsed};
use syntax::{CLAUSES, DECLARATION_SIZE, DECLARATIONS, ParserState, Refusal, TokenKind};

const NOTHING_READ: SheetParsed = SheetParsed {
    declarations: 0,
    clauses: 0,
    used: 0,
};

/// The reader at a text's first token, with no variable and no literal met.
pub fn start(s: &[u8]) -> ParserState
    requires { length s.now ≤ sheet_bytes }
    ensures is { result ≡ record { token = token_at s.now 0; count = 0; literals = 0 } }
    ensures stands { CursorInside s.now result }
{
    ParserState {
        token: lex::tokens::token_at(s, 0),
        count: 0,
        literals: 0,
    }
}

// A declaration behind `ds` others.
fn next_declaration(
    s: &[u8],
    st: ParserState,
    declared: &mut [u32],
    ds: usize,
) -> Result<Parsed, Refusal>
    requires cursor_inside { CursorInside s.now st }
    requires ds_le_declarations { (ds ≤ declarations) × (declared_words ≤ length declared.old) }
    ensures { DeclarationGives s.now st declared.old declared.new (declaration_size * ds) result
        (declaration_next s.now (declarations - ds) (begin st.token)) }
{
    if ds == DECLARATIONS {
        return Err(beyond(st));
    }
    read_declaration(s, st, declared, DECLARATION_SIZE * ds)
}

// A clause behind `cs` others.
fn next_clause(
    s: &[u8],
    st: ParserState,
    table: &mut [u32],
    used: usize,
    cs: usize,
) -> Result<Parsed, Refusal>
    requires room_to_read { RoomToRead s.now (fresh st) table.old used 4 }
    requires kind_value { (st.token.kind ≡ name_kind) × (cs ≤ clauses) }
    ensures { Gives clause_form s.now st table.old table.new used result
        (clause_next s.now (clauses - cs) (begin st.token)) }
{
    if cs == CLAUSES {
        return Err(beyond(st));
    }
    read_clause(s, st, table, used)
}

// A fault behind what was read.
fn fault_behind(before: SheetParsed, refusal: Refusal) -> SheetFault
    ensures { result ≡ record { refusal = refusal; before = before } }
{
    SheetFault { refusal, before }
}

/// A sheet: its declarations into one table and its clauses into another, up to the end of the text or the first fault.
pub fn read_items(
    s: &[u8],
    declared: &mut [u32],
    table: &mut [u32],
) -> Result<SheetParsed, SheetFault>
    requires s_len_bound { length s.now ≤ sheet_bytes }
    requires declared_words_in_bounds { (declared_words ≤ length declared.old) × ((sheet_words ≤ length table.old) × (length table.old < 2 ^ 31)) }
    ensures { Parses s.now declared.new table.new result (read_sheet s.now) }
{
    let mut st = start(s);
    let mut read = NOTHING_READ;
    // Where an item begins is known only when the one before it was read.
    while st.token.kind != TokenKind::End {
        if st.token.kind == TokenKind::Neck {
            match next_declaration(s, st, declared, read.declarations) {
                Ok(r) => {
                    read.declarations += 1;
                    st = r.state;
                    continue;
                }
                Err(refusal) => return Err(fault_behind(read, refusal)),
            }
        }
        if st.token.kind != TokenKind::Name {
            return Err(fault_behind(read, wrong(st)));
        }
        match next_clause(s, st, table, read.used, read.clauses) {
            Ok(r) => {
                read.clauses += 1;
                read.used = r.used;
                st = r.state;
            }
            Err(refusal) => return Err(fault_behind(read, refusal)),
        }
    }
    Ok(read)
}

/// A goal: the items of its body into a node table, which has a node's words for each byte of the text, one word more and one for each variable.
pub fn read_goal(s: &[u8], table: &mut [u32]) -> Result<Parsed, Refusal>
    requires s_len_bound { length s.now ≤ sheet_bytes }
    requires variables_in_bounds { (node_words * length s.now + 1 + variables ≤ length table.old) × (length table.old < 2 ^ 31) }
    ensures { GoalParses s.now table.new result (read_goal s.now) }
{
    let st = start(s);
    let r = read_whole(s, st, table, 0)?;
    if r.state.token.kind == TokenKind::End {
        return Ok(r);
    }
    Err(wrong(r.state))
}
