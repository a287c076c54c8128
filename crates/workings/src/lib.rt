// Workings of another engine checked over loaded words (REQUESTS (xi)): the records one at a time, what a record makes of the top alternative, and the replay.

#![tactic(auto)]

pub mod choices;
pub mod loaded_checks;
pub mod records;
pub mod replays;
