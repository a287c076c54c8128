// No code: what is known ground, the refusals 8 to 10 and 16 and the judgment are definitions in specs/; proofs/ has cases of them and the laws of terms and
// equations. The theorems about them are `mode_theorems`'s.

#![tactic(auto)]
