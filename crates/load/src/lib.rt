// A sheet and a goal as read into the words of a run: nodes and symbols, then the code of clauses and goal.

#![tactic(auto)]

pub mod clauses;
pub mod interning;
pub mod items;
pub mod next_clauses;
pub mod node_words;
pub mod nodes;
pub mod programs;
pub mod records;
pub mod symbols;
