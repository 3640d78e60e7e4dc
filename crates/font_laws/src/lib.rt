// What an opened font promises of the other calls, and small fonts: specs/ and proofs/ have it; there is no code.
#![tactic(auto)]
