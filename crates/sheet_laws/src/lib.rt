// Demand 3 as one theorem: specs/Demand3.antt states it, about any outcomes that the calls for a table's sheet and for
// a sheet's parts may have, and proofs/Theorem.antt proves it.
#![tactic(auto)]
