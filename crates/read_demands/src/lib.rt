// What calls of the second engine's C entry answer: statements in specs/, proofs in proofs/. There is no code here.
#![tactic(auto)]
