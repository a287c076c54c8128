// Refusal 9 at a literal that is no bracket, by the declarations of a sheet.

ghost use Rattle.std.specs.Prelude.{◌+◌, ◌≤◌, ◌<◌, length, get_or};
ghost use Rattle.syntax.specs.Words.{atom_words, left_kind};
ghost use Rattle.mode_rules.specs.Modes.{call_walk};
ghost use Rattle.marks.specs.LiteralsAnswers.{WalkPassed, PastLiteral};
ghost use Rattle.marks.specs.InTables.{DeclarationsIn, AtomIn, LiteralIn};

use crate::arguments::{call_fault, ground_marked};
use crate::declarations::ClauseCheck;
use crate::equations::settle;
use crate::flags::Known;
use syntax::{CALL_KIND, FALSITY_KIND, NODE_WORDS, OUTPUT, Refusal, TRUTH_KIND, VARIABLES};
use words::tables::{past, word_at};

/// What a walk along a part of a body gives where it meets no fault: what is known ground after it, the place past the part, how many items it is, and the
/// number of the next literal.
#[derive(Clone, Copy)]
pub struct Passed {
    pub known: Known,
    pub next: usize,
    pub items: usize,
    pub literal: usize,
}

// The call whose atom stands at `p`: its fault, or what is known after it. The inputs are tested by what is known before it.
fn call_walk(
    check: ClauseCheck<'_>,
    p: usize,
    literal: usize,
    known: Known,
) -> Result<Passed, Refusal>
    requires atom_at { AtomIn check.read p }
    requires literal_le_p { literal ≤ p }
    ensures { (d : DeclarationsIn check.entry.declarations) (w : AtomIn check.entry.read p)
        → WalkPassed result (call_walk d.list check.entry.clause literal known w.atom) (p + length (atom_words w.atom)) 1 (literal + 1) }
{
    let table = check.read.table;
    let marks = check.declarations.marks_of(check.read, p);
    let from = p + NODE_WORDS;
    let stop = past(table, p);
    let after = ground_marked(table, from, stop, marks, OUTPUT, known);
    call_fault(table, p, marks, known, check.clause, literal)?;
    Ok(Passed {
        known: after,
        next: stop,
        items: 1,
        literal: literal + 1,
    })
}

/// Refusal 9 at the literal at `p`, which is no bracket and has the number `literal`; or what is known ground after it, and where the walk goes on. A literal
/// takes a word or more, so its number is at most its place and one.
pub fn plain_walk(
    check: ClauseCheck<'_>,
    p: usize,
    literal: usize,
    known: Known,
) -> Result<Passed, Refusal>
    requires literal_at { LiteralIn check.read p }
    requires p_bound { (get_or check.read.table.now p 0 < left_kind) × (literal ≤ p + 1) }
    ensures { (d : DeclarationsIn check.entry.declarations) (w : LiteralIn check.entry.read p)
        → PastLiteral result d.list check.entry.clause literal known p w.literal }
{
    let table = check.read.table;
    let kind = word_at(table, p);
    let q = p + 1;
    let more = literal + 1;
    if kind == TRUTH_KIND {
        return Ok(Passed {
            known,
            next: q,
            items: 1,
            literal: more,
        });
    }
    if kind == FALSITY_KIND {
        return Ok(Passed {
            known: [true; VARIABLES],
            next: q,
            items: 1,
            literal: more,
        });
    }
    if kind == CALL_KIND {
        return call_walk(check, q, literal, known);
    }
    let right = past(table, q);
    let next = past(table, right);
    let after = settle(check.read, q, right, known);
    Ok(Passed {
        known: after,
        next,
        items: 1,
        literal: more,
    })
}
