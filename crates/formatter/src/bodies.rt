// Bodies, item after item: the words of a bracket are written as they come, so no function calls itself.

ghost use Rattle.std.specs.Prelude.{◌≡◌, false, [], ◌+◌, ◌-◌, ◌*◌, ◌^◌, ◌≤◌, ◌<◌, get_or, length};
ghost use Rattle.syntax.specs.Words.{equation_kind};
ghost use Rattle.words.specs.Buffers.{Appended};
ghost use Rattle.marks.specs.InTables.{BodyIn};
ghost use Rattle.format_rules.specs.Writing.{body_text};
ghost use Rattle.formatter.specs.Tables.{ItemIn, word_room};
ghost use Rattle.formatter.specs.Texts.{comma, item_text, is_behind_literal};

use crate::terms::append_term;
use marks::declarations::ReadText;
use syntax::{CALL_KIND, EQUATION_KIND, FALSITY_KIND, LEFT_KIND, RIGHT_KIND, TRUTH_KIND};
use words::buffers::{append_all, append_byte};
use words::packing::kind_of_item;
use words::tables::{past, past_item, word_at};

// How far a body is written, and whether a literal stands there, so that a further one wants a comma.
#[derive(Clone, Copy)]
struct Written {
    at: usize,
    started: bool,
}

// The comma, where one is wanted.
fn append_comma(from: Written, out: &mut [u8]) -> usize
    requires { from.at + 1 < 2 ^ 64 }
    ensures { Appended out.old from.at (comma from.started []) out.new result }
{
    if from.started {
        return append_byte(b',', out, from.at);
    }
    from.at
}

// The literal at a place, which is no word of a bracket.
fn append_literal(read: ReadText<'_>, p: usize, out: &mut [u8], at: usize) -> usize
    requires stands { ItemIn read p }
    requires plain { get_or read.table.now p 0 ≤ equation_kind }
    requires room { at + word_room * (length read.table.now - p) ≤ 2 ^ 63 }
    ensures { (w : ItemIn read.entry p) → Appended out.old at (item_text false w.item []) out.new result }
{
    let kind = word_at(read.table, p);
    if kind == TRUTH_KIND {
        return append_all(b"true", out, at);
    }
    if kind == FALSITY_KIND {
        return append_all(b"fail", out, at);
    }
    let left = p + 1;
    let past_left = append_term(read, left, out, at);
    if kind == CALL_KIND {
        return past_left;
    }
    let past_sign = append_byte(b'=', out, past_left);
    let right = past(read.table, left);
    append_term(read, right, out, past_sign)
}

// The item at a place: a literal, or a word of a bracket. A comma stands before a literal and before a bracket that have a literal before them.
fn append_item(read: ReadText<'_>, p: usize, from: Written, out: &mut [u8]) -> Written
    requires stands { ItemIn read p }
    requires room { from.at + word_room * (length read.table.now - p) < 2 ^ 63 }
    ensures wrote { (w : ItemIn read.entry p) → Appended out.old from.at (item_text from.started w.item []) out.new result.at }
    ensures started { (w : ItemIn read.entry p) → result.started ≡ is_behind_literal w.item }
{
    let word = word_at(read.table, p);
    if word <= EQUATION_KIND {
        let past_comma = append_comma(from, out);
        return Written {
            at: append_literal(read, p, out, past_comma),
            started: true,
        };
    }
    let kind = kind_of_item(word);
    if kind == LEFT_KIND {
        let past_comma = append_comma(from, out);
        return Written {
            at: append_byte(b'(', out, past_comma),
            started: false,
        };
    }
    if kind == RIGHT_KIND {
        return Written {
            at: append_byte(b';', out, from.at),
            started: false,
        };
    }
    Written {
        at: append_byte(b')', out, from.at),
        started: true,
    }
}

/// The body of so many items at a place.
pub fn append_body(read: ReadText<'_>, p: usize, items: usize, out: &mut [u8], at: usize) -> usize
    requires stands { BodyIn read p items }
    requires room { at + word_room * (length read.table.now - p) < 2 ^ 63 }
    ensures { (w : BodyIn read.entry p items) → Appended out.old at (body_text w.body []) out.new result }
{
    let mut place = p;
    let mut written = Written { at, started: false };
    for _ in 0..items {
        written = append_item(read, place, written, out);
        place = past_item(read.table, place);
    }
    written.at
}
