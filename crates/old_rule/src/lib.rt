// The rule that the instruments followed before, Optimal Available, and its plan: the slowest speed that would finish what waits now if no
// job came any more. What it sets in one queue is in speed, the rows of its plan are in rows, and its call is in call.
#![tactic(auto)]

mod call;
mod rows;
mod speed;

pub use call::{RuleAnswer, rule};
