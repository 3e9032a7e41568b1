// The three demands as theorems (proofs/). This crate has no code.
#![tactic(auto)]
