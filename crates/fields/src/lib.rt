// Bit fields of a word and tables: definitions in specs/ and their laws in proofs/. There is no code here.

#![tactic(auto)]
