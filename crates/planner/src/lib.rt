// The planner: works out, beforehand, the speed of every slot and bearable queue. Its call is in calls; the rows are filled by a crate of
// their own, backward.
#![tactic(auto)]

mod calls;

pub use calls::{PlanAnswer, plan};
