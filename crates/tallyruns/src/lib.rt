// Theorems in proofs/ on a tally during the day: what any run of calls on a tally begun from a file leaves and answers, that its bytes are
// a selection which the other calls take, and that the sort of file does not matter. A worked run is in specs/. There is no code here.
#![tactic(auto)]
