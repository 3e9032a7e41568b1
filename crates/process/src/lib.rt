// The theory of ways, as definitions (specs/) and theorems (proofs/). This crate has no code.
#![tactic(auto)]
