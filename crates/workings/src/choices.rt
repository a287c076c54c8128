// What a choice makes of the top alternative, and what a literal makes of it that asks for none. What lies below the top is never worked on.

ghost use Rattle.std.specs.Prelude.{◌-◌, Some};
ghost use Rattle.derivations.specs.declared.Choice.TheVariants.{Numbered};
ghost use Rattle.run.specs.Steps.{meaning};
ghost use Rattle.workings.specs.Choices.{ClauseTakable, LiteralPassable, LiteralPassed, SideTakable, ChoiceDue, ChoiceMade, side};

use derivations::Choice;
use load::records::Compiled;
use run::alternatives::PileHeight;
use run::alternatives::records::top_at;
use run::alternatives::trying::try_clause;
use run::steps::step;
use run_layout::SPLIT_KIND;
use syntax::{CALL_KIND, LONGEST_PATH};
use words::tables::word_at;

// The clause of a number tried for the call that the top stands at; none where its head does not unify. A clause of another predicate is one such.
fn take_clause(
    program: Compiled,
    state: &mut [u32],
    scratch: &mut [u32],
    height: usize,
    number: usize,
) -> Option<PileHeight>
    requires { ClauseTakable program.nodes.now program.code.now state.old scratch.old height number }
    ensures { (w : ClauseTakable program.entry.nodes.now program.entry.code.now state.old scratch.old height number)
        → ChoiceMade (meaning w.top.running) state.old scratch.old (height - 1) (Numbered number) state.new scratch.new result }
{
    let p = try_clause(program, state, scratch, height, number);
    if p.height == height {
        return None;
    }
    Some(p)
}

/// `true`, `fail` or an equation that the top stands at gone through; none where it fails.
pub fn go_through(
    program: Compiled,
    state: &mut [u32],
    scratch: &mut [u32],
    pile: PileHeight,
) -> Option<PileHeight>
    requires { LiteralPassable program.nodes.now program.code.now state.old scratch.old pile.height pile.trail }
    ensures { (w : LiteralPassable program.entry.nodes.now program.entry.code.now state.old scratch.old pile.height pile.trail)
        → LiteralPassed (meaning w.top.running) state.old scratch.old (pile.height - 1) state.new scratch.new result }
{
    let p = step(program, state, scratch, pile);
    if p.height < pile.height {
        return None;
    }
    Some(p)
}

// The left or the right side of the bracket that the top stands at.
fn take_side(
    program: Compiled,
    state: &mut [u32],
    scratch: &mut [u32],
    pile: PileHeight,
    right: bool,
) -> PileHeight
    requires { SideTakable program.nodes.now program.code.now state.old scratch.old pile.height pile.trail }
    ensures { (w : SideTakable program.entry.nodes.now program.entry.code.now state.old scratch.old pile.height pile.trail)
        → ChoiceMade (meaning w.top.running) state.old scratch.old (pile.height - 1) (side right) state.new scratch.new (Some result) }
{
    let p = step(program, state, scratch, pile);
    if right {
        return PileHeight {
            height: p.height - 1,
            trail: p.trail,
        };
    }
    p
}

// The clause of a number, of so many, taken for what the top stands at; none where it does not fit: the top stands at a bracket, no clause has that number,
// the path is the longest, or the head does not unify.
fn take_number(
    program: Compiled,
    clauses: usize,
    state: &mut [u32],
    scratch: &mut [u32],
    pile: PileHeight,
    number: usize,
) -> Option<PileHeight>
    requires { ChoiceDue program.nodes.now program.code.now clauses state.old scratch.old pile.height pile.trail }
    ensures { (w : ChoiceDue program.entry.nodes.now program.entry.code.now clauses state.old scratch.old pile.height pile.trail)
        → ChoiceMade (meaning w.top.running) state.old scratch.old (pile.height - 1) (Numbered number) state.new scratch.new result }
{
    let s = top_at(state, pile.height - 1);
    if word_at(program.code, s.literal) != CALL_KIND {
        return None;
    }
    if number == 0 {
        return None;
    }
    if clauses < number {
        return None;
    }
    if LONGEST_PATH <= s.path {
        return None;
    }
    take_clause(program, state, scratch, pile.height, number)
}

// The left or the right side taken of what the top stands at; none where it is a call.
fn take_named_side(
    program: Compiled,
    clauses: usize,
    state: &mut [u32],
    scratch: &mut [u32],
    pile: PileHeight,
    right: bool,
) -> Option<PileHeight>
    requires { ChoiceDue program.nodes.now program.code.now clauses state.old scratch.old pile.height pile.trail }
    ensures { (w : ChoiceDue program.entry.nodes.now program.entry.code.now clauses state.old scratch.old pile.height pile.trail)
        → ChoiceMade (meaning w.top.running) state.old scratch.old (pile.height - 1) (side right) state.new scratch.new result }
{
    let s = top_at(state, pile.height - 1);
    if word_at(program.code, s.literal) != SPLIT_KIND {
        return None;
    }
    Some(take_side(program, state, scratch, pile, right))
}

/// A choice made where the top stands at a call or a bracket, over a sheet of so many clauses; none where it does not fit.
pub fn make_choice(
    program: Compiled,
    clauses: usize,
    state: &mut [u32],
    scratch: &mut [u32],
    pile: PileHeight,
    choice: Choice,
) -> Option<PileHeight>
    requires { ChoiceDue program.nodes.now program.code.now clauses state.old scratch.old pile.height pile.trail }
    ensures { (w : ChoiceDue program.entry.nodes.now program.entry.code.now clauses state.old scratch.old pile.height pile.trail)
        → ChoiceMade (meaning w.top.running) state.old scratch.old (pile.height - 1) choice state.new scratch.new result }
{
    match choice {
        Choice::Numbered(number) => take_number(program, clauses, state, scratch, pile, number),
        Choice::Left => take_named_side(program, clauses, state, scratch, pile, false),
        Choice::Right => take_named_side(program, clauses, state, scratch, pile, true),
    }
}
