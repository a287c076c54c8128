// Refusal 9 along the literals of a body, brackets among them, by the declarations of a sheet. A walk is given the place `p`, the number of the literal there
// and what is known ground before it, and answers with `marks::literals::Passed`.

ghost use Rattle.std.specs.Prelude.{◌≡◌, ◌+◌, ◌≤◌, get_or};
ghost use Rattle.syntax.specs.Words.{left_kind};
ghost use Rattle.mode_rules.specs.Modes.{body_fault};
ghost use Rattle.marks.specs.BodiesAnswers.{walk_of};
ghost use Rattle.marks.specs.LiteralsAnswers.{PastLiteral, PastBody};
ghost use Rattle.marks.specs.Sides.{SideIn};
ghost use Rattle.marks.specs.InTables.{DeclarationsIn, LiteralIn, BodyIn};

use crate::declarations::ClauseCheck;
use crate::flags::{Known, in_both};
use crate::literals::{Passed, plain_walk};
use syntax::{LEFT_KIND, Refusal};
use words::packing::items_of_side;
use words::tables::word_at;

// The words of a bracket beside its sides': before the left one, before the right one, behind it.
const BRACKET_WORDS: usize = 3;

// One literal, a bracket or not.
#[cycle(either_walk_literal_walk_literals_walk_side_walk)]
fn literal_walk(
    check: ClauseCheck<'_>,
    p: usize,
    literal: usize,
    known: Known,
) -> Result<Passed, Refusal>
    requires literal_at { LiteralIn check.read p }
    requires literal_bound { literal ≤ p + 1 }
    ensures { (d : DeclarationsIn check.entry.declarations) (w : LiteralIn check.entry.read p)
        → PastLiteral result d.list check.entry.clause literal known p w.literal }
{
    if LEFT_KIND <= word_at(check.read.table, p) {
        return either_walk(check, p, literal, known);
    }
    plain_walk(check, p, literal, known)
}

// A bracket: both sides from what is known before it; behind it is known what both leave.
#[cycle(either_walk_literal_walk_literals_walk_side_walk)]
fn either_walk(
    check: ClauseCheck<'_>,
    p: usize,
    literal: usize,
    known: Known,
) -> Result<Passed, Refusal>
    requires literal_at { LiteralIn check.read p }
    requires left_kind_bound { (left_kind ≤ get_or check.read.table.now p 0) × (literal ≤ p + 1) }
    ensures { (d : DeclarationsIn check.entry.declarations) (w : LiteralIn check.entry.read p)
        → PastLiteral result d.list check.entry.clause literal known p w.literal }
{
    let left = side_walk(check, p, literal, known)?;
    let middle = left.next;
    let more = left.literal;
    let right = side_walk(check, middle, more, known)?;
    Ok(Passed {
        known: in_both(left.known, right.known),
        next: right.next + 1,
        items: left.items + right.items + BRACKET_WORDS,
        literal: right.literal,
    })
}

// A side of a bracket, of which the word before it stands at `p`.
#[cycle(either_walk_literal_walk_literals_walk_side_walk)]
fn side_walk(
    check: ClauseCheck<'_>,
    p: usize,
    literal: usize,
    known: Known,
) -> Result<Passed, Refusal>
    requires side_at { SideIn check.read p }
    requires literal_bound { literal ≤ p + 1 }
    ensures { (d : DeclarationsIn check.entry.declarations) (w : SideIn check.entry.read p)
        → PastBody result d.list check.entry.clause literal known (p + 1) w.body }
{
    let items = items_of_side(word_at(check.read.table, p));
    let q = p + 1;
    literals_walk(check, q, items, literal, known)
}

// The `items` items of a body or of a side in turn: the first fault, or what is known after them.
#[cycle(either_walk_literal_walk_literals_walk_side_walk)]
fn literals_walk(
    check: ClauseCheck<'_>,
    p: usize,
    items: usize,
    literal: usize,
    known: Known,
) -> Result<Passed, Refusal>
    requires body_at { BodyIn check.read p items }
    requires literal_bound { literal ≤ p + 1 }
    ensures { (d : DeclarationsIn check.entry.declarations) (w : BodyIn check.entry.read p items)
        → PastBody result d.list check.entry.clause literal known p w.body }
{
    let mut at = p;
    let mut i = 0;
    let mut number = literal;
    let mut flags = known;
    // A bracket is several items, so the count rises by as many as the literal turned out to be.
    while i < items {
        let walked = literal_walk(check, at, number, flags)?;
        flags = walked.known;
        at = walked.next;
        number = walked.literal;
        i += walked.items;
    }
    Ok(Passed {
        known: flags,
        next: at,
        items,
        literal: number,
    })
}

/// Refusal 9 along a body whose `items` items stand from `p` on and whose literals have the numbers from 1 on; or what is known ground after them.
pub fn body_walk(
    check: ClauseCheck<'_>,
    p: usize,
    items: usize,
    known: Known,
) -> Result<Known, Refusal>
    requires { BodyIn check.read p items }
    ensures { (d : DeclarationsIn check.entry.declarations) (w : BodyIn check.entry.read p items)
        → walk_of result ≡ body_fault d.list check.entry.clause 1 known w.body }
{
    let walked = literals_walk(check, p, items, 1, known)?;
    Ok(walked.known)
}
