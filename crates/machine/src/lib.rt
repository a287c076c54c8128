// No code: unification, the machine of RULES, its runs and the two counts as definitions (specs/), with computed cases (proofs/). The theorems about them
// are `machine_theorems`'s.

#![tactic(auto)]
