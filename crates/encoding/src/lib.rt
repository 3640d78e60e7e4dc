// What a sheet's sections are made of (document 01, "The sheet"): maximal runs, distinct elements in order of first use, and
// counted sections, over any kind of element. The definitions stand in specs/ and their laws in proofs/; there is no code.
#![tactic(auto)]
