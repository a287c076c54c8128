// Sheets and goals into tables of words: what was read of a sheet, and its first fault, refusals 3 to 6 of RULES.

pub mod items;

use syntax::Refusal;

/// What was read of a sheet: how many declarations and clauses, and how many words of the node table the clauses use.
#[derive(Clone, Copy)]
pub struct SheetParsed {
    pub declarations: usize,
    pub clauses: usize,
    pub used: usize,
}

/// Where a fault ends the reading of a sheet: its refusal, and what was read before the item at fault.
#[derive(Clone, Copy)]
pub struct SheetFault {
    pub refusal: Refusal,
    pub before: SheetParsed,
}
