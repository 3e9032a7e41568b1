// The price of a lent plan: what following it costs, from every slot and queue, or none where it would not do. The rows of prices are filled
// from the last slot back, each from the row of the next (slots), as the planner fills its values; the call is in call.
#![tactic(auto)]

mod call;
mod slots;

pub use call::{PriceAnswer, price};
