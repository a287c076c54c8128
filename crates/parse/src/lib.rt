// Tokens into words of a table: terms, literals, clauses, declarations, sheets and goals; refusals 3 to 6 of RULES.
//
// Parameters have the same names throughout: `s` is the text, `st` where its reader stands, `table` the words, `n` the place to write at, and `left` how many
// brackets may still be opened. `CursorInside` and `RoomToRead` (specs/Gives) say what is asked of them.

#![tactic(auto)]

pub mod clauses;
pub mod cursor;
pub mod declarations;
pub mod leaves;
pub mod literals;
pub mod sheets;
pub mod terms;

use syntax::ParserState;

/// What was read of a text: the place in the table behind its words, how many things it is (arguments, items of a body; else 1), and where the reader
/// stands behind it.
#[derive(Clone, Copy)]
pub struct Parsed {
    pub used: usize,
    pub items: usize,
    pub state: ParserState,
}
