// What reading and writing have to do with each other: the theorems in specs/Theorems.antt, proved in proofs/. There is no code here.

#![tactic(auto)]
