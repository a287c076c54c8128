// No code: the theorems about unification, the machine of RULES, its runs, the two counts and the test of REQUESTS
// (xii). Their definitions are `machine`'s.

#![tactic(auto)]
