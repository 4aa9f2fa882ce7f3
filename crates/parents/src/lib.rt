// Laws of a prefix and of those with one letter less, for the proofs of the crates above; there is no code.
#![tactic(auto)]
