// No code: the theorems of `format_rules`' claims. A writing is read back as the same sheet but for places; sheets are written alike exactly where they are the
// same but for names of variables; a writing is accepted, and writing it afresh changes no byte.

#![tactic(auto)]
