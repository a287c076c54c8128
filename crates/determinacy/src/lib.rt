// At most one answer (REQUESTS (xii)): whether an accepted sheet has no bracket and no two clauses of one predicate whose + arguments have a common
// instance, so that a run without a trace, of a goal without brackets, writes at most one line.

#![tactic(auto)]

pub mod brackets;
pub mod inputs;
pub mod overlaps;
mod pairs;

ghost use Rattle.std.specs.Prelude.{◌≡◌};
ghost use Rattle.machine.specs.Determinacy.{first_pair, judged_by, against};
ghost use Rattle.determinacy.specs.Told.{told};
ghost use Rattle.determinacy.specs.Tables.{SheetLinked, SheetReady};

use crate::brackets::bracketed_clause;
use load::node_words::{ReadGoal, ReadSheet};
use load::nodes::load_nodes;
use load::programs::link;
use load::records::Compiled;
use marks::declarations::Declarations;
use pairs::first_pair;
use run_layout::rooms::cleared;
use run_layout::{CODE_WORDS, NARROW_WORDS, NODES_WORDS, STORE_WORDS};
use syntax::Refusal;

/// The answer to the test: yes; no, with the numbers of the first two clauses that speak against the sheet, or of the first that has a bracket and 0; or the
/// sheet's refusal. Clauses count from 1.
#[derive(Clone, Copy)]
pub enum Determinacy {
    Yes,
    No { first: usize, second: usize },
    Refused(Refusal),
}

// Tests the pairs of clauses of a loaded and linked sheet, with words of its own for unification.
fn judge_linked(
    declarations: Declarations,
    table: &[u32],
    k: usize,
    program: Compiled,
) -> Determinacy
    requires { SheetLinked declarations.text.now declarations.words.now declarations.count table.now k program.nodes.now program.code.now }
    ensures { (w : SheetLinked declarations.entry.text.now declarations.entry.words.now declarations.entry.count
        table.now k program.entry.nodes.now program.entry.code.now) → result
        ≡ told (judged_by (first_pair w.stands.sheet.declarations 1 w.stands.sheet.clauses)) }
{
    let mut state: [u32; STORE_WORDS] = cleared();
    let mut scratch: [u32; NARROW_WORDS] = cleared();
    first_pair(declarations, table, k, program, &mut state, &mut scratch)
}

// Tests the pairs of clauses of a sheet that stands in its tables: it is loaded and linked with a goal of no literals.
fn judge_pairs(declarations: Declarations, table: &[u32], k: usize) -> Determinacy
    requires { SheetReady declarations.text.now declarations.words.now declarations.count table.now k }
    ensures { (w : SheetReady declarations.entry.text.now declarations.entry.words.now declarations.entry.count table.now k) → result
        ≡ told (judged_by (first_pair w.stands.sheet.declarations 1 w.stands.sheet.clauses)) }
{
    let sheet = ReadSheet {
        text: declarations.text,
        table,
        clauses: k,
    };
    let text = [0u8; 1];
    let words = [0u32; 1];
    let goal = ReadGoal {
        text: &text,
        table: &words,
        literals: 0,
    };
    let mut nodes: [u32; NODES_WORDS] = cleared();
    let mut symbols: [u32; NODES_WORDS] = cleared();
    let mut code: [u32; CODE_WORDS] = cleared();
    load_nodes(sheet, goal, &mut nodes, &mut symbols);
    link(sheet, goal, &nodes, &mut code);
    let program = Compiled {
        nodes: &nodes,
        code: &code,
    };
    judge_linked(declarations, table, k, program)
}

/// Tests a checked sheet that stands in its tables: its declarations, and the words of its `k` clauses. Brackets are looked for first, then pairs of clauses.
pub fn judge(declarations: Declarations, table: &[u32], k: usize) -> Determinacy
    requires { SheetReady declarations.text.now declarations.words.now declarations.count table.now k }
    ensures { (w : SheetReady declarations.entry.text.now declarations.entry.words.now declarations.entry.count table.now k) → result
        ≡ told (judged_by (against w.stands.sheet)) }
{
    if let Some(first) = bracketed_clause(table, k) {
        return Determinacy::No { first, second: 0 };
    }
    judge_pairs(declarations, table, k)
}
