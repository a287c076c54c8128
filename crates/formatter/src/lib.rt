// A sheet written afresh (REQUESTS (iv)), from the words that it was read into, into a lent buffer.

#![tactic(auto)]

pub mod bodies;
pub mod clauses;
pub mod declarations;
pub mod sheets;
pub mod terms;
