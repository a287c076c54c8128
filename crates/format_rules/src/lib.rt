// No code: a sheet written afresh, what writing it gives, when two sheets are the same but for places or names, and what is proved of that
// (REQUESTS (iv)). The proofs are in `format_theorems`.

#![tactic(auto)]
