// `L` and a sheet, which is read, or `M` and a sheet, which is checked, with a list of three entries lent each time: the line of the verdict is
// printed, and then the list, an entry to a line. `F`, words of four bytes, lowest first, a name and a text: the first word is a number of arguments,
// the others are entries of the text, in which the predicate is looked for, and what the search tells is printed.
ghost use Rattle.std.specs.Prelude.{◌≡◌, ◌+◌, ◌*◌, ◌≤◌, ◌<◌, length, IfOk};

use crate::case::Case;
use crate::numbers::print_number;
use crate::records::text_at;
use marks::lookup::Lookup;
use pilvaust::lent_lists::Lent;
use std::io::{Result, Write};
use syntax::Entry;

// The first byte of a record whose sheet is read.
const READ: u8 = b'L';

// The first byte of a record that asks for a search.
const SEARCH: u8 = b'F';

// The most words of a search.
const MOST_WORDS: usize = 270;

// The bytes of a word.
const WORD: usize = 4;

// A place that no sheet has, as the next two.
const FIRST_PLACE: usize = 20001;

const SECOND_PLACE: usize = 20002;

const THIRD_PLACE: usize = 20003;

// The list as it is lent: entries that no sheet has.
fn held() -> [Entry; 3] {
    let first = Entry {
        at: FIRST_PLACE,
        len: 41,
        arguments: 11,
    };
    let second = Entry {
        at: SECOND_PLACE,
        len: 42,
        arguments: 12,
    };
    let third = Entry {
        at: THIRD_PLACE,
        len: 43,
        arguments: 13,
    };
    [first, second, third]
}

fn print_entry<W: Write>(out: &mut W, entry: Entry) -> Result<()> {
    write!(out, "{}", entry.at)?;
    print_number(out, entry.len)?;
    print_number(out, entry.arguments)?;
    out.write_all(b"\n")
}

fn print_lent<W: Write>(out: &mut W, sheet: &[u8], lent: Lent) -> Result<()> {
    let verdict = lent.verdict;
    output::printing::print_line(out, verdict, pilvaust::fault_name(sheet, b"", verdict))?;
    for entry in &lent.list {
        print_entry(out, *entry)?;
    }
    Ok(())
}

// The word whose bytes stand at a place.
fn word_of(bytes: &[u8], at: usize) -> u32
    requires { at + 3 < length bytes.now }
{
    u32::from_le_bytes([bytes[at], bytes[at + 1], bytes[at + 2], bytes[at + 3]])
}

// How many whole words some bytes are, at most 270.
fn word_count(bytes: &[u8]) -> usize
    ensures { (result ≤ 270) × (result * 4 ≤ length bytes.now) }
{
    (bytes.len() / WORD).min(MOST_WORDS)
}

// The whole words of some bytes, at most 270, and zeros behind them.
fn words_of(bytes: &[u8]) -> [u32; MOST_WORDS]
    ensures { 270 ≡ length result }
{
    let mut words = [0u32; MOST_WORDS];
    let n = word_count(bytes);
    for i in 0..n {
        words[i] = word_of(bytes, i * WORD);
    }
    words
}

fn print_lookup<W: Write>(out: &mut W, lookup: Lookup) -> Result<()> {
    match lookup.place {
        Some(place) => {
            out.write_all(b"found")?;
            print_number(out, place)?;
        }
        None => out.write_all(b"missing")?,
    }
    print_number(out, lookup.compared)?;
    out.write_all(b"\n")
}

// Searches for the name with the number of arguments that is the first word.
fn search<W: Write>(out: &mut W, text: &[u8], bytes: &[u8], name: &[u8]) -> Result<()> {
    let n = word_count(bytes);
    if n == 0 {
        return Ok(());
    }
    let words = words_of(bytes);
    let arguments = words[0] as usize;
    print_lookup(out, pilvaust::look_up(text, &words[1..n], name, arguments))
}

// Answers the rest of a record that asks for a search.
fn answer_search<W: Write>(out: &mut W, cases: &[u8], at: usize) -> Result<usize>
    requires { at ≤ length cases.now }
    ensures { IfOk result (λ next. (at ≤ next) × (next ≤ length cases.now)) }
{
    let words = text_at(cases, at);
    let name = text_at(cases, words.end);
    let text = text_at(cases, name.end);
    search(
        out,
        &cases[text.start..text.end],
        &cases[words.start..words.end],
        &cases[name.start..name.end],
    )?;
    Ok(text.end)
}

/// The kind of case of the file `list`.
pub struct ListCase;

impl Case for ListCase {
    fn answer<W: Write>(out: &mut W, cases: &[u8], at: usize) -> Result<usize> {
        if cases[at] == SEARCH {
            return answer_search(out, cases, at + 1);
        }
        let text = text_at(cases, at + 1);
        let sheet = &cases[text.start..text.end];
        if cases[at] == READ {
            print_lent(out, sheet, pilvaust::lent_lists::read_lent(sheet, held()))?;
            return Ok(text.end);
        }
        print_lent(out, sheet, pilvaust::lent_lists::check_lent(sheet, held()))?;
        Ok(text.end)
    }
}
