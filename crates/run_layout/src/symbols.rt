// Names of symbols.
ghost use Rattle.std.specs.Prelude.{◌≡◌};
ghost use Rattle.run_layout.specs.SymbolNames.{text_of};

use crate::symbol_text;

/// The text in which the name of a symbol's word stands: the sheet or the goal.
pub fn text_of<'a>(w: u32, sheet: &'a [u8], goal: &'a [u8]) -> &'a [u8]
    ensures { result.now ≡ text_of w sheet.now goal.now }
{
    if symbol_text(w) == 0 {
        return sheet;
    }
    goal
}
