// Several days under one oven, as one day: the definitions and laws stand in specs/ and proofs/. This layer has no code of its own.
#![tactic(auto)]
