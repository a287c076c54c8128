// Unification over the words of a run, by the trail and cells of `bindings`, with the occurs check: whether a binding closes a cycle.

#![tactic(auto)]

pub mod cycles;
pub mod solve;
pub mod walk;
