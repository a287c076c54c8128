// Pairs of clauses of one predicate whose + arguments have a common instance.
ghost use Rattle.std.specs.Prelude.{◌≡◌, ◌+◌};
ghost use Rattle.machine.specs.Determinacy.{first_pair, judged_by};
ghost use Rattle.run_layout.specs.Rooms.{Clean};
ghost use Rattle.determinacy.specs.Told.{told};
ghost use Rattle.determinacy.specs.Tables.{PairsReady};

use crate::Determinacy;
use crate::overlaps::first_overlap;
use load::records::Compiled;
use marks::declarations::{Declarations, ReadText};
use syntax::CLAUSE_START;
use words::tables::past_clause;

/// Looks for the first two clauses of one predicate that overlap, the lowest first clause and the first behind it: `No` with their numbers, and `Yes` where
/// there are none. The words lent for unification are left without bindings.
pub fn first_pair(
    declarations: Declarations,
    table: &[u32],
    k: usize,
    program: Compiled,
    state: &mut [u32],
    scratch: &mut [u32],
) -> Determinacy
    requires { PairsReady declarations table.now k program state.old scratch.old }
    ensures is { (w : PairsReady declarations.entry table.now k program.entry state.old scratch.old) → result
        ≡ told (judged_by (first_pair w.linked.stands.sheet.declarations 1 w.linked.stands.sheet.clauses)) }
    ensures leaves { Clean state.new × Clean scratch.new }
{
    let read = ReadText {
        text: declarations.text,
        table,
    };
    let mut at = 0;
    // Clauses are of several lengths; each says where the next begins.
    for i in 0..k {
        let number = i + 1;
        let head = at + CLAUSE_START;
        let marks = declarations.marks_of(read, head);
        if let Some(second) = first_overlap(program, state, scratch, number, marks) {
            return Determinacy::No {
                first: number,
                second,
            };
        }
        at = past_clause(table, at);
    }
    Determinacy::Yes
}
