// The machine's run over words: settings, the pile of alternatives, the step, an answer told, turns, and the whole of it, from a sheet and a goal that
// were read to the report and the lines.

#![tactic(auto)]

pub mod alternatives;
pub mod brackets;
pub mod calls;
pub mod loaded_runs;
pub mod settings;
pub mod steps;
pub mod telling;
pub mod turns;
pub mod whole_runs;
