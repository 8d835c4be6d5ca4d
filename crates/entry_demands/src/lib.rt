// What calls of the C entry answer, and two of them as one: statements in specs/, their proofs in proofs/. There is no
// code here.

#![tactic(auto)]
