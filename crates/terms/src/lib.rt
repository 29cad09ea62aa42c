// Theorems in proofs/ on the two terms: what settling under the second terms promises, and that a file with only kinds 0 and 1 is
// answered alike under either: the same rows, the same ranks, the same refusals. Worked days with four kinds are in specs/. There is no
// code here.
#![tactic(auto)]
