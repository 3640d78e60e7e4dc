// The lines and tables that document 01 marks as proved ("Sample lines and tables"), as one theorem: specs/Samples.antt
// has the cases and what it is for one to hold, and proofs/Theorem.antt proves that all hold. There is no code.
#![tactic(auto)]
