// What the programs print and what C is told: verdicts, reports and results as lines and as numbers.

#![tactic(auto)]

pub mod entries;
pub mod faults;
pub mod lines;
pub mod listings;
pub mod names;
pub mod numbers;
pub mod printing;
pub mod refusals;
pub mod reports;
pub mod results;
pub mod storing;
pub mod verdicts;
