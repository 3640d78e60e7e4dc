// What holds of every line's call (document 01, "Numbers of refusal", 9 to 16, "The class walk", and the demands; document
// 02, refusal 18 of request 7/14): each refusal in plain words and exactly when it is given; a walk that is refused never
// ends, one that is not has ended as reported; tables with equal sheets justify every line alike; a line of equal sizes
// answers as the call for a line in one size did (document 02, request 5/14). The definitions stand in specs/ and the
// theorems in proofs/; there is no code.
#![tactic(auto)]
