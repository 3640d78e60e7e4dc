// A table that stands at every upper limit of document 01, "The table", at once: it is accepted. The table stands in specs/ and the theorem in
// proofs/; there is no code.
#![tactic(auto)]
