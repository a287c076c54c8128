// Recorded sessions: the records of a trace scanned, its refusals 13 to 15, and its facts written behind a sheet.

#![tactic(auto)]

pub mod facts;
pub mod faults;
pub mod records;
pub mod scans;
pub mod ticks;
