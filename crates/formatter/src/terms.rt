// Terms. The function on a term and the one on a list of terms call each other, as far as the brackets go.

ghost use Rattle.std.specs.Prelude.{[], ◌+◌, ◌-◌, ◌*◌, ◌^◌, ◌<◌, get_or};
ghost use Rattle.syntax.specs.Limits.{variables};
ghost use Rattle.words.specs.Buffers.{Appended};
ghost use Rattle.format_rules.specs.Writing.{variable_name, term_text};
ghost use Rattle.formatter.specs.Tables.{TermIn, TermsIn, word_room};
ghost use Rattle.formatter.specs.Texts.{terms_text};

use marks::declarations::ReadText;
use syntax::{FIRST_NAME, NODE_WORDS};
use words::buffers::{append_byte, append_decimal, append_part};
use words::packing::length_of;
use words::tables::{past, word_at};

// The variable of a number.
fn append_variable(n: usize, out: &mut [u8], at: usize) -> usize
    requires { (n < variables) × (at + 30 < 2 ^ 64) }
    ensures { Appended out.old at (variable_name n) out.new result }
{
    let past_letter = append_byte(b'V', out, at);
    append_decimal(n + 1, out, past_letter)
}

/// The term at a place.
#[cycle(append_term_append_terms)]
pub fn append_term(read: ReadText<'_>, p: usize, out: &mut [u8], at: usize) -> usize
    requires stands { TermIn read p }
    requires room { at + word_room * get_or read.table.now (p + 1) 0 < 2 ^ 63 }
    ensures { (w : TermIn read.entry p) → Appended out.old at (term_text w.term []) out.new result }
{
    let what = word_at(read.table, p);
    if what < FIRST_NAME {
        return append_variable(what, out, at);
    }
    let len = length_of(what);
    let place = word_at(read.table, p + 2);
    let past_name = append_part(read.text, place, len, out, at);
    let from = p + NODE_WORDS;
    let stop = past(read.table, p);
    if stop <= from {
        return past_name;
    }
    let past_open = append_byte(b'(', out, past_name);
    append_terms(read, from, stop, out, past_open)
}

// The terms up to a place, one or more, and the closing bracket.
#[cycle(append_term_append_terms)]
fn append_terms(read: ReadText<'_>, p: usize, stop: usize, out: &mut [u8], at: usize) -> usize
    requires stand { TermsIn read p stop }
    requires some { p < stop }
    requires room { at + word_room * (stop - p) < 2 ^ 63 }
    ensures { (w : TermsIn read.entry p stop) → Appended out.old at (terms_text w.terms) out.new result }
{
    let past_first = append_term(read, p, out, at);
    let next = past(read.table, p);
    if stop <= next {
        return append_byte(b')', out, past_first);
    }
    let past_comma = append_byte(b',', out, past_first);
    append_terms(read, next, stop, out, past_comma)
}
