// The joined file of several counters stands in specs/ and proofs/. This layer has no code of its own.
#![tactic(auto)]
