// All the rows of a plan: the end row, and both passes over each slot from the last one back (passes); the walk over the slots, which pricing
// walks too, is in slots. The two passes are crates of their own, ahead and choose, and so are the tables that they read, entry_lanes and
// speed_lanes.
//
// The plan of a slot needs only the values of the next one, so slots are planned from the last one back. After a slot at a speed the last
// two totals of a queue are the same, and few queues are like that: what is ahead of those is worked out first, one sum for each, and
// then each speed of each queue costs one look-up. So a slot's work grows with the queues after a slot times the jobs, and with the
// queues times the speeds, and not with queues times speeds times jobs. No queue is numbered while a slot is planned: where each look-up
// goes is worked out once per plan, along blocks of queues.
#![tactic(auto)]

mod passes;
mod slots;

pub use passes::fill;
pub use slots::{Slot, Slots, Walk};
