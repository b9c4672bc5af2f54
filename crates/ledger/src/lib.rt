// Demand 3 is a theorem over the definitions: this crate has no code. See specs/ and proofs/.
#![tactic(auto)]
