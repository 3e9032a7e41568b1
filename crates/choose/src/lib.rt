// The second pass over a slot: for each queue the least over the speeds, the slower speed where two cost the same. It is made for any
// buffer of what is ahead after a slot; the planner says what that is.
//
// It reads the lanes of the speeds, a crate of their own, speed_lanes: each queue costs one look-up per speed (least), and a row is filled
// queue by queue (row). What it goes by, and the queues of a row one after the other, are in pass.
#![tactic(auto)]

mod least;
mod pass;
mod row;

pub use pass::{Pass, Queue, Queues};
