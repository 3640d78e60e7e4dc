// What holds of every list of differences of two tables, whatever outcomes the calls have (document 02, 6/14): theorems
// only.
#![tactic(auto)]
