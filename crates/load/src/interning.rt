// A symbol looked for, and listed where it is new.

ghost use Rattle.std.specs.Prelude.{◌≤◌, ◌<◌, length};
ghost use Rattle.syntax.specs.Limits.{arguments};
ghost use Rattle.run_layout.specs.Regions.{most_nodes, nodes_words};
ghost use Rattle.load.specs.Symbols.{SymbolInside, SymbolsListed};
ghost use Rattle.load.specs.Interning.{Interned, SymbolCount};

use crate::symbols::{Texts, find_symbol};
use run_layout::MOST_NODES;

/// The number of the symbol with the name of the symbol's word w and so many arguments, which is listed where it is new.
pub fn intern(texts: Texts, symbols: &mut [u32], count: usize, w: u32, arguments: u32) -> usize
    requires { (SymbolsListed texts.sheet.now texts.goal.now symbols.old count × (count < most_nodes))
        × ((nodes_words ≤ length symbols.old) × SymbolInside texts.sheet.now texts.goal.now w) }
    ensures { Interned texts.entry.sheet.now texts.entry.goal.now symbols.old count w arguments symbols.new result }
{
    if let Some(k) = find_symbol(texts, symbols, count, w, arguments) {
        return k;
    }
    let j = MOST_NODES + count;
    symbols[count] = w;
    symbols[j] = arguments;
    count
}

/// How many symbols are listed once number k is among them.
pub fn counted(count: usize, k: usize) -> usize
    requires { (count < most_nodes) × (k ≤ count) }
    ensures { SymbolCount count k result }
{
    count.max(k + 1)
}
