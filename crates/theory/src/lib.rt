// The laws of the definitions, for the proofs of the crates above; there is no code.
