// The replay of a goal by the records of some workings. It is the run with its choices made by the records: of the pile only the top is ever worked on.

ghost use Rattle.std.specs.Prelude.{◌-◌};
ghost use Rattle.derivations.specs.Workings.{records_of, replay, begun};
ghost use Rattle.run.specs.Steps.{meaning};
ghost use Rattle.workings.specs.Replays.{Replaying, RecordDue, LiteralDue, MoveMade, ReplayStartable, start_meaning, ReplayEnded};

use crate::choices::{go_through, make_choice};
use crate::records::{record_at, record_bytes};
use load::records::Compiled;
use run::alternatives::PileHeight;
use run::alternatives::records::top_at;
use run::steps::start;
use run::telling::rewind;
use run_layout::{COPIES, END_KIND, SPLIT_KIND};
use syntax::{CALL_KIND, LITERALS};
use words::tables::word_at;

// How many moves a replay makes at most: each takes a literal of the goal or of one of the copies.
const MOST_MOVES: usize = LITERALS * COPIES;

/// Where a replay stands: on a pile; with so many bytes of records that are used up; and past the record that is gone through, where the next one begins.
#[derive(Clone, Copy)]
pub struct Place {
    pub pile: PileHeight,
    pub used: usize,
    pub past: usize,
}

/// What a move comes to: another place, the pile of the answer, or no answer, with so many bytes of records used up.
#[derive(Clone, Copy)]
pub enum Move {
    On(Place),
    Answer(PileHeight),
    Stopped(usize),
}

// The next record's choice made, where the top stands at a call or a bracket.
fn follow_record(
    program: Compiled,
    clauses: usize,
    workings: &[u8],
    state: &mut [u32],
    scratch: &mut [u32],
    at: Place,
) -> Move
    requires { RecordDue program.nodes.now program.code.now clauses workings.now state.old scratch.old at }
    ensures { (w : RecordDue program.entry.nodes.now program.entry.code.now clauses workings.now state.old scratch.old at)
        → MoveMade (meaning w.replaying.top.running) workings.now state.old scratch.old at state.new scratch.new result }
{
    let Some(choice) = record_at(workings, at.past) else {
        return Move::Stopped(at.past);
    };
    let Some(pile) = make_choice(program, clauses, state, scratch, at.pile, choice) else {
        return Move::Stopped(at.past);
    };
    Move::On(Place {
        pile,
        used: at.past,
        past: at.past + record_bytes(choice),
    })
}

// `true`, `fail` or an equation gone through. Where it fails the record that is gone through is not used up.
fn pass_literal(
    program: Compiled,
    clauses: usize,
    workings: &[u8],
    state: &mut [u32],
    scratch: &mut [u32],
    at: Place,
) -> Move
    requires { LiteralDue program.nodes.now program.code.now clauses workings.now state.old scratch.old at }
    ensures { (w : LiteralDue program.entry.nodes.now program.entry.code.now clauses workings.now state.old scratch.old at)
        → MoveMade (meaning w.replaying.top.running) workings.now state.old scratch.old at state.new scratch.new result }
{
    let Some(pile) = go_through(program, state, scratch, at.pile) else {
        return Move::Stopped(at.used);
    };
    Move::On(Place {
        pile,
        used: at.used,
        past: at.past,
    })
}

// The next move, by the literal that the top stands at.
fn next_move(
    program: Compiled,
    clauses: usize,
    workings: &[u8],
    state: &mut [u32],
    scratch: &mut [u32],
    at: Place,
) -> Move
    requires { Replaying program.nodes.now program.code.now clauses workings.now state.old scratch.old at }
    ensures { (w : Replaying program.entry.nodes.now program.entry.code.now clauses workings.now state.old scratch.old at)
        → MoveMade (meaning w.top.running) workings.now state.old scratch.old at state.new scratch.new result }
{
    let trail = rewind(state, at.pile);
    let pile = PileHeight {
        height: at.pile.height,
        trail,
    };
    let here = Place {
        pile,
        used: at.used,
        past: at.past,
    };
    let s = top_at(state, pile.height - 1);
    let kind = word_at(program.code, s.literal);
    if kind == END_KIND {
        if at.past < workings.len() {
            return Move::Stopped(at.past);
        }
        return Move::Answer(pile);
    }
    if kind == CALL_KIND || kind == SPLIT_KIND {
        return follow_record(program, clauses, workings, state, scratch, here);
    }
    pass_literal(program, clauses, workings, state, scratch, here)
}

/// A goal replayed over a sheet of so many clauses: the pile of its answer, or how many bytes of records are used up. Workings of any length are taken, since
/// the moves run out first.
pub fn replay(
    program: Compiled,
    clauses: usize,
    workings: &[u8],
    state: &mut [u32],
    scratch: &mut [u32],
) -> Result<PileHeight, usize>
    requires { ReplayStartable program.nodes.now program.code.now clauses state.old scratch.old }
    ensures { (w : ReplayStartable program.entry.nodes.now program.entry.code.now clauses state.old scratch.old)
        → ReplayEnded (start_meaning w) state.new scratch.new (replay w.start.sh (records_of workings.now) (begun w.start.g)) result }
{
    start(program.code, state);
    let mut at = Place {
        pile: PileHeight {
            height: 1,
            trail: 0,
        },
        used: 0,
        past: 0,
    };
    let mut left = MOST_MOVES;
    // How many moves there are is known only when one of the ends is met.
    loop {
        match next_move(program, clauses, workings, state, scratch, at) {
            Move::On(next) => at = next,
            Move::Answer(pile) => return Ok(pile),
            Move::Stopped(bytes) => return Err(bytes),
        }
        left -= 1;
    }
}
