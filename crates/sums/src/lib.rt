// Document 01's sums marked P: the list in specs/Sums.antt, proved in proofs/Agree.antt. There is no code here.

#![tactic(auto)]
