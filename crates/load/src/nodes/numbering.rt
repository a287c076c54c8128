// Each name of the copied nodes replaced by its symbol's number.
ghost use Rattle.std.specs.Prelude.{◌≤◌, ◌<◌, length, get_or};
ghost use Rattle.run_layout.specs.Regions.{most_nodes, nodes_words};
ghost use Rattle.load.specs.Symbols.{SymbolsListed};
ghost use Rattle.load.specs.Listing.{NodeInside, NodeNumbered, Copied, NodesNumbered};

use crate::interning::{counted, intern};
use crate::node_words::{ARITIES, NAMED};
use crate::symbols::Texts;
use run_layout::LOADED_NODE;
use syntax::FIRST_NAME;

// The node at a place with its symbol's number; how many symbols there are then.
fn number_node(
    texts: Texts,
    nodes: &mut [u32],
    p: usize,
    symbols: &mut [u32],
    count: usize,
) -> usize
    requires symbols_listed { (SymbolsListed texts.sheet.now texts.goal.now symbols.old count × (count < most_nodes))
        × ((nodes_words ≤ length symbols.old) × (p < length nodes.old)) }
    requires node_inside { NodeInside texts.sheet.now texts.goal.now (get_or nodes.old p 0) }
    ensures { NodeNumbered texts.entry.sheet.now texts.entry.goal.now nodes.old p symbols.old count nodes.new
        symbols.new result }
{
    let v = nodes[p];
    if v < NAMED {
        return count;
    }
    let named = v - NAMED;
    let k = intern(texts, symbols, count, named / ARITIES, named % ARITIES);
    let number = k + FIRST_NAME;
    nodes[p] = number as u32;
    counted(count, k)
}

/// Gives each copied name, up to a place, its symbol's number, lists the symbols, and says how many there are.
pub fn number_nodes(texts: Texts, nodes: &mut [u32], stop: usize, symbols: &mut [u32]) -> usize
    requires nodes_words_in_bounds { (nodes_words ≤ length symbols.old) × (stop ≤ nodes_words) }
    requires copied { Copied texts.sheet.now texts.goal.now nodes.old stop }
    ensures { (w : Copied texts.entry.sheet.now texts.entry.goal.now nodes.old stop)
        → NodesNumbered texts.entry.sheet.now texts.entry.goal.now w.flats nodes.old nodes.new symbols.new result }
{
    let mut count = 0;
    for p in (0..stop).step_by(LOADED_NODE) {
        count = number_node(texts, nodes, p, symbols, count);
    }
    count
}
