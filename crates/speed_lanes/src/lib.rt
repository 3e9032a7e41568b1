// The lanes of the speeds, which the second pass over a slot reads. Queues come in blocks that differ in their last total alone, and along a
// block the number of the queue after a slot at a speed rises with that total: a lane. So the lanes of all speeds and blocks are worked out
// once per plan, in a table.
#![tactic(auto)]

mod speeds;

pub use speeds::{SpeedLanes, Speeds, fill_table};
