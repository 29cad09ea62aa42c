// Theorems in proofs/ on the two layouts of a file: each call answers the same for an accepted file and for its week file. There is no code here.
#![tactic(auto)]
