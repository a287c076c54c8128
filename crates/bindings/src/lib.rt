// Below unification, over the words of a run: cells and trail, bindings that plainly close no cycle, the work stack, and what makes unification fast: short
// cuts and a memo of equal terms. All stand in tables of words that are lent, the state and the scratch words. What is asked of scratch words is `Roomy`,
// that there are so many, and what builds on it.

#![tactic(auto)]

pub mod memos;
pub mod occurrence;
pub mod shortcuts;
pub mod stack;
pub mod store;
