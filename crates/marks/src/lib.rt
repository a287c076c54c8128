// A sheet and a goal held against the marks of the declarations, over the tables of words that parsing fills: what is known ground along a clause, and
// refusals 7 to 10 and 16.

#![tactic(auto)]

pub mod arguments;
pub mod bodies;
pub mod clauses;
pub mod declarations;
pub mod equations;
pub mod flags;
pub mod literals;
pub mod lookup;
pub mod repeats;
pub mod sheets;
pub mod terms;
pub mod undeclared;
