// `S` and a sheet or `G` and a goal, whose reading is printed; `E`, the number of a declaration from 0 on in one byte and a sheet, of which that
// entry is printed; or `T`, a number in one byte and a text, of which the token is printed before which so many stand.
ghost use Rattle.std.specs.Prelude.{◌≤◌, ◌<◌, length, IfOk};

use crate::case::Case;
use crate::numbers::print_number;
use crate::records::{text_at, wide};
use std::io::{Result, Write};
use syntax::{Entry, TokenKind};

// The first byte of a record whose text is a sheet to be read.
const SHEET: u8 = b'S';

// The first byte of a record that asks for an entry.
const ENTRY: u8 = b'E';

// The first byte of a record that asks for a token.
const TOKEN: u8 = b'T';

fn print_declared<W: Write>(out: &mut W, declared: Option<Entry>) -> Result<()> {
    match declared {
        Some(entry) => {
            out.write_all(b"entry")?;
            print_number(out, entry.at)?;
            print_number(out, entry.len)?;
            print_number(out, entry.arguments)?;
            out.write_all(b"\n")
        }
        None => out.write_all(b"none\n"),
    }
}

// The number of a kind of token, as the separately written engine has it.
fn kind_number(kind: TokenKind) -> usize {
    match kind {
        TokenKind::NoToken => 0,
        TokenKind::Name => 3,
        TokenKind::Variable => 4,
        TokenKind::Numeral => 5,
        TokenKind::Neck => 6,
        TokenKind::Open => 7,
        TokenKind::Close => 8,
        TokenKind::Comma => 9,
        TokenKind::Stop => 10,
        TokenKind::Equals => 11,
        TokenKind::Plus => 12,
        TokenKind::Minus => 13,
        TokenKind::Star => 14,
        TokenKind::Overlong => 15,
        TokenKind::End => 16,
        TokenKind::Semicolon => 17,
    }
}

/// The kind of case of the file `read`.
pub struct ReadCase;

impl Case for ReadCase {
    fn answer<W: Write>(out: &mut W, cases: &[u8], at: usize) -> Result<usize> {
        let kind = cases[at];
        if kind == ENTRY {
            return answer_entry(out, cases, at + 1);
        }
        if kind == TOKEN {
            return answer_token(out, cases, at + 1);
        }
        let text = text_at(cases, at + 1);
        if kind == SHEET {
            output::printing::print_line(out, pilvaust::read(&cases[text.start..text.end]), b"")?;
            return Ok(text.end);
        }
        output::printing::print_line(out, pilvaust::read_goal(&cases[text.start..text.end]), b"")?;
        Ok(text.end)
    }
}

// Answers the rest of a record that asks for an entry.
fn answer_entry<W: Write>(out: &mut W, cases: &[u8], at: usize) -> Result<usize>
    requires { at ≤ length cases.now }
    ensures { IfOk result (λ next. (at ≤ next) × (next ≤ length cases.now)) }
{
    if at == cases.len() {
        return Ok(at);
    }
    let text = text_at(cases, at + 1);
    print_declared(
        out,
        pilvaust::entry(&cases[text.start..text.end], wide(cases[at])),
    )?;
    Ok(text.end)
}

// Answers the rest of a record that asks for a token.
fn answer_token<W: Write>(out: &mut W, cases: &[u8], at: usize) -> Result<usize>
    requires { at ≤ length cases.now }
    ensures { IfOk result (λ next. (at ≤ next) × (next ≤ length cases.now)) }
{
    if at == cases.len() {
        return Ok(at);
    }
    let text = text_at(cases, at + 1);
    let token = lex::reader::nth_token(&cases[text.start..text.end], wide(cases[at]));
    out.write_all(b"token")?;
    print_number(out, kind_number(token.kind))?;
    print_number(out, token.at)?;
    print_number(out, token.len)?;
    out.write_all(b"\n")?;
    Ok(text.end)
}
