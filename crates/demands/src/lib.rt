// No code: specs/ states the users' demands, laws of rows, document 01's tables and what Card 2 adds, about the
// definitions of the crates below, and proofs/ proves them.
#![tactic(auto)]
