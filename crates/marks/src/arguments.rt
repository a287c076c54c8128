// The arguments of an atom that have one mark: the first that is not ground, and what they make ground. A mark is a number, as it stands in the word that
// packs an atom's marks. Arguments stand from the place `p` up to the place `stop`; `marks` packs those from the argument at `p` on.

ghost use Rattle.std.specs.Prelude.{◌≡◌, ◌+◌, ◌≤◌, eqb, length};
ghost use Rattle.syntax.specs.Terms.{input, output, Mark};
ghost use Rattle.syntax.specs.Words.{first_mark, mark_number};
ghost use Rattle.mode_rules.specs.Modes.{open_byte, list_of, if_marked, first_open, ground_marked, open_input, open_output};
ghost use Rattle.marks.specs.Tables.{TermAt, MarkedAt, JudgedAt};
ghost use Rattle.marks.specs.Answers.{checked_of, groundness_of};
ghost use Rattle.marks.specs.ArgumentsAnswers.{first_open_of};

use crate::declarations::name_at;
use crate::flags::Known;
use crate::terms::{ground_term, ground_test};
use syntax::{INPUT, NODE_WORDS, OUTPUT, Refusal};
use words::packing::{first_mark, other_marks};
use words::tables::past;

/// The first argument that has a mark and is not ground: its number, from 1 on, and the byte of the first variable in it that is not known ground.
#[derive(Clone, Copy)]
pub struct FirstOpen {
    pub argument: usize,
    pub byte: usize,
}

// The ground test of the term at `p`, whose mark is the first of `marks`: none where it is ground, or where its mark is not `mark`.
fn marked_test(table: &[u32], p: usize, marks: usize, mark: usize, known: Known) -> Option<usize>
    requires { TermAt table.now p }
    ensures { (w : TermAt table.now p) → result ≡ groundness_of (if_marked (eqb (first_mark marks) mark) (open_byte known w.term)) }
{
    if first_mark(marks) != mark {
        return None;
    }
    ground_test(table, p, known)
}

// The first of the terms from `p` to `stop` that has the mark and is not ground; they are numbered from `number` on.
fn first_open(
    table: &[u32],
    p: usize,
    stop: usize,
    marks: usize,
    mark: usize,
    known: Known,
    number: usize,
) -> Option<FirstOpen>
    requires marked_at { MarkedAt table.now p stop marks mark }
    requires stop_in_bounds { number + stop ≤ length table.now + p }
    ensures { (w : MarkedAt table.now p stop marks mark) → result ≡ first_open_of (first_open w.wanted known w.listed (list_of w.terms)
        number) }
{
    if stop <= p {
        return None;
    }
    match marked_test(table, p, marks, mark, known) {
        Some(byte) => Some(FirstOpen {
            argument: number,
            byte,
        }),
        None => {
            let next = past(table, p);
            let rest = other_marks(marks);
            let more = number + 1;
            first_open(table, next, stop, rest, mark, known, more)
        }
    }
}

/// What is known ground once the variables of those terms from `p` to `stop` that have the mark are.
pub fn ground_marked(
    table: &[u32],
    p: usize,
    stop: usize,
    marks: usize,
    mark: usize,
    known: Known,
) -> Known
    requires { MarkedAt table.now p stop marks mark }
    ensures { (w : MarkedAt table.now p stop marks mark) → result ≡ ground_marked w.wanted w.listed (list_of w.terms) known }
{
    if stop <= p {
        return known;
    }
    let next = past(table, p);
    let rest = other_marks(marks);
    if first_mark(marks) == mark {
        let after = ground_term(table, p, known);
        return ground_marked(table, next, stop, rest, mark, after);
    }
    ground_marked(table, next, stop, rest, mark, known)
}

// The first argument of the atom at `p` that has the mark and is not ground, by the atom's marks.
fn open_argument(
    table: &[u32],
    p: usize,
    marks: usize,
    mark: usize,
    known: Known,
) -> Option<FirstOpen>
    requires judged_at { JudgedAt table.now p marks }
    requires mark_is { (m : Mark) × (mark ≡ mark_number m) }
    ensures { (w : JudgedAt table.now p marks) (m : Mark) → mark ≡ mark_number m
        → result ≡ first_open_of (first_open m known w.listed (list_of w.atom.args) 1) }
{
    let from = p + NODE_WORDS;
    let stop = past(table, p);
    first_open(table, from, stop, marks, mark, known, 1)
}

/// Refusal 9 of the call at `p`, by its marks: the first + argument that is not ground.
pub fn call_fault(
    table: &[u32],
    p: usize,
    marks: usize,
    known: Known,
    clause: usize,
    literal: usize,
) -> Result<(), Refusal>
    requires { JudgedAt table.now p marks }
    ensures { (w : JudgedAt table.now p marks) → result
        ≡ checked_of (open_input clause literal w.atom (first_open input known w.listed (list_of w.atom.args) 1)) }
{
    match open_argument(table, p, marks, INPUT, known) {
        None => Ok(()),
        Some(found) => {
            let name = name_at(table, p);
            Err(Refusal::OpenInput {
                byte: found.byte,
                clause,
                literal,
                argument: found.argument,
                at: name.at,
                len: name.len,
            })
        }
    }
}

/// Refusal 10 of the head at `p`, by its marks and what is known after its body: the first - argument that is not ground.
pub fn head_fault(
    table: &[u32],
    p: usize,
    marks: usize,
    known: Known,
    clause: usize,
) -> Result<(), Refusal>
    requires { JudgedAt table.now p marks }
    ensures { (w : JudgedAt table.now p marks) → result
        ≡ checked_of (open_output clause w.atom (first_open output known w.listed (list_of w.atom.args) 1)) }
{
    match open_argument(table, p, marks, OUTPUT, known) {
        None => Ok(()),
        Some(found) => {
            let name = name_at(table, p);
            Err(Refusal::OpenOutput {
                byte: found.byte,
                clause,
                argument: found.argument,
                at: name.at,
                len: name.len,
            })
        }
    }
}
