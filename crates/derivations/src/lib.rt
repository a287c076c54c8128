// Workings of another engine (REQUESTS (xi)) as definitions, and the theorems about them, which `claims` promises.

#![tactic(auto)]

/// What a record of workings says: which clause a call takes, by its number in the sheet, or which side of a bracket is taken.
#[derive(Clone, Copy)]
pub enum Choice {
    Numbered(usize),
    Left,
    Right,
}
