// The first pass over a slot: what is ahead of each queue after the slot, which is the weighted sum over the entries of the values in a row.
// The queues after a slot are far fewer than all queues, and with a sum for each of them the second pass needs none for each speed. The
// pass is made over any row of values; the planner says which one.
//
// It reads the lanes of the entries, a crate of their own, entry_lanes: each sum costs one look-up per entry (step), and what is ahead is
// filled block by block (pass).
#![tactic(auto)]

mod pass;
mod step;

pub use pass::Pass;
