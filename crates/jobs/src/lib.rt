// Single jobs with deadlines of their own, as definitions (specs/), and what document 01's totals say of them, as theorems (proofs/). This
// crate has no code.
#![tactic(auto)]
