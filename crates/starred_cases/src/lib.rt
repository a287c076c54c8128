// What the two programs print, and the starred cases of RULES: definitions and proofs, no code.

#![tactic(auto)]
