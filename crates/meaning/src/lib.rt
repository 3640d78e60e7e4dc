// What a meaning is (document 01, "The sheet"), which of its parts can be asked for, how an answer is handed out, the limits that its parts
// keep, and the bytes that are written for it. The definitions stand in specs/ and their laws in proofs/; there is no code.
#![tactic(auto)]
