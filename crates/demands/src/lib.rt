// The customer's demands as theorems over the machine's definitions: statements in specs/, proofs in proofs/. There is no code here.
#![tactic(auto)]
