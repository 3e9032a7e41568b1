// Demand 3 over the definitions: sheets paired job by job, in specs/, and what follows, in proofs/. This crate has no code.
#![tactic(auto)]
