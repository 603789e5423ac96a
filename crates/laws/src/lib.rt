// Laws of tests and of lists that the proofs of the other crates share. There is no code in this crate.
#![tactic(auto)]
