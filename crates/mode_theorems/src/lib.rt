// No code: the theorems about the rules of the marks: that checking agrees with the judgment, and what the change requests changed. The definitions are
// `mode_rules`'s.

#![tactic(auto)]
