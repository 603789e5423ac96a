// Definitions and proofs only: 01's book, and the claim over every list of calls.
#![tactic(auto)]
