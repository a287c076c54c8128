// Loading: the nodes of a sheet's clauses and of a goal, in which each name with its number of arguments is a symbol. First all nodes are copied
// one behind the other, each name by its place; then each name is given its symbol's number.

mod copying;
mod numbering;

ghost use Rattle.load.specs.Loading.{Loadable, Loaded};

use crate::node_words::{ReadGoal, ReadSheet, Source};
use crate::symbols::Texts;
use copying::{copy_body, copy_clauses};
use numbering::number_nodes;

/// Writes the nodes of a goal and then those of a sheet's clauses, and the symbols of both.
pub fn load_nodes(sheet: ReadSheet, goal: ReadGoal, nodes: &mut [u32], symbols: &mut [u32])
    requires { Loadable sheet.text.now sheet.table.now sheet.clauses goal.text.now goal.table.now goal.literals nodes.old symbols.old }
    ensures { (w : Loadable sheet.entry.text.now sheet.entry.table.now sheet.entry.clauses goal.entry.text.now goal.entry.table.now
        goal.entry.literals nodes.old symbols.old) → Loaded sheet.entry.text.now goal.entry.text.now w.tables.sh w.tables.g nodes.new symbols.new }
{
    let middle = copy_body(goal.table, 0, goal.literals, Source::Goal, nodes, 0);
    let stop = copy_clauses(sheet.table, sheet.clauses, nodes, middle);
    let texts = Texts {
        sheet: sheet.text,
        goal: goal.text,
    };
    number_nodes(texts, nodes, stop, symbols);
}
