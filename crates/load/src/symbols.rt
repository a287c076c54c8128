// Symbols, names with a number of arguments: for number k, the word with the place, the text and the length of its name, and `MOST_NODES` words further on its
// number of arguments. They stand in a lent table; how many there are is handed on beside it.

ghost use Rattle.std.specs.Prelude.{◌≡◌, ◌+◌, ◌<◌, IfNone, IfSome, length, get_or};
ghost use Rattle.syntax.specs.Terms.{same_bytes};
ghost use Rattle.load.specs.Symbols.{word_name, SymbolInside, symbol_at, SymbolsListed, symbols_of};
ghost use Rattle.syntax.specs.Limits.{arguments};
ghost use Rattle.run_layout.specs.Regions.{most_nodes};
ghost use Rattle.run_layout.specs.Nodes.{is_symbol, symbol_of};

use run_layout::symbols::text_of;
use run_layout::{MOST_NODES, symbol_place};
use words::packing::span_length;
use words::texts::same_bytes;

/// The two texts in which names stand.
#[derive(Clone, Copy)]
pub struct Texts<'a> {
    pub sheet: &'a [u8],
    pub goal: &'a [u8],
}

// Whether two words have the same name.
fn same_name(texts: Texts, v: u32, w: u32) -> bool
    requires { SymbolInside texts.sheet.now texts.goal.now v × SymbolInside texts.sheet.now texts.goal.now w }
    ensures { result ≡ same_bytes (word_name texts.entry.sheet.now texts.entry.goal.now v)
        (word_name texts.entry.sheet.now texts.entry.goal.now w) }
{
    let len = span_length(w);
    let left = text_of(v, texts.sheet, texts.goal);
    let right = text_of(w, texts.sheet, texts.goal);
    span_length(v) == len && same_bytes(left, symbol_place(v), right, symbol_place(w), len)
}

// Whether the symbol of a number has the name of a word and so many arguments.
fn is_symbol(texts: Texts, symbols: &[u32], k: usize, w: u32, arguments: u32) -> bool
    requires { (most_nodes + k < length symbols.now) × (SymbolInside texts.sheet.now texts.goal.now (get_or symbols.now k 0)
        × SymbolInside texts.sheet.now texts.goal.now w) }
    ensures { result ≡ is_symbol (word_name texts.entry.sheet.now texts.entry.goal.now w) arguments
        (symbol_at texts.entry.sheet.now texts.entry.goal.now symbols.now k) }
{
    let j = MOST_NODES + k;
    symbols[j] == arguments && same_name(texts, symbols[k], w)
}

/// The number of the symbol with the name of the symbol's word w and so many arguments, if it is among the first `count`.
pub fn find_symbol(
    texts: Texts,
    symbols: &[u32],
    count: usize,
    w: u32,
    arguments: u32,
) -> Option<usize>
    requires { SymbolsListed texts.sheet.now texts.goal.now symbols.now count × SymbolInside texts.sheet.now texts.goal.now w }
    ensures none { IfNone result (count ≡ symbol_of (symbols_of texts.entry.sheet.now texts.entry.goal.now symbols.now count)
        (word_name texts.entry.sheet.now texts.entry.goal.now w) arguments) }
    ensures some { IfSome result (λ k. (k < count)
        × (k ≡ symbol_of (symbols_of texts.entry.sheet.now texts.entry.goal.now symbols.now count)
        (word_name texts.entry.sheet.now texts.entry.goal.now w) arguments)) }
{
    (0..count).find(
        |&k|
            requires { (most_nodes + k < length symbols.now) × (SymbolInside texts.sheet.now texts.goal.now (get_or symbols.now k 0)
                × SymbolInside texts.sheet.now texts.goal.now w) }
        { is_symbol(texts, symbols, k, w, arguments) },
    )
}
