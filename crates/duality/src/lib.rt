// The laws of prices over a network, and of one row more, stand in specs/ and proofs/. This layer has no code of its own.
#![tactic(auto)]
