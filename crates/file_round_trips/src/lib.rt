// The round trips of a field file are theorems over the definitions that its two calls cite: this crate has no code. See specs/ and proofs/.
#![tactic(auto)]
