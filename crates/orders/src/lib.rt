// What the lines of a call tell: definitions in specs/ and theorems in proofs/, over the model alone. This crate has no code.
#![tactic(auto)]
