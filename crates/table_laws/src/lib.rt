// What holds of every table read with a glyph count (document 01, "The table", "The sheet" and "Numbers of refusal"): its first fault in plain
// words, and that an accepted table's meaning keeps the limits. The definitions stand in specs/ and the theorems in proofs/; there is no code.
#![tactic(auto)]
