// The second pass over a slot by a lent plan: for each queue what the speed of its plan byte costs, none where the byte is no speed of the
// sheet or too slow. It is made for any buffer of what is ahead after a slot, and for any bytes; the planner's second pass, choose, takes
// the least over all the speeds instead.
//
// It goes by what that one goes by (choose's Pass): each queue costs one look-up (cost), and a row is filled queue by queue (row).
#![tactic(auto)]

mod cost;
mod row;

pub use cost::places_of;
pub use row::fill;
