// The text of a readable word tells it from every other: the statement in specs/, the proof in proofs/. There is no
// code here.

#![tactic(auto)]
