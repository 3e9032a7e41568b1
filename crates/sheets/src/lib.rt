// The tests of a sheet in memory: its refusal, the first of 4 to 10 in 01's field order (refusal); what is worked out once for a sheet
// (sizes); and a sheet that passed, with its sizes (tested). The range of each field, and 9 and 10 over what a whole sheet's numbers come
// to, are crates of their own, ranges and limits.
//
// A sheet is handed on by value: nothing here changes it. Places past the counts are never looked at.
#![tactic(auto)]

mod refusal;
mod sizes;
mod tested;

pub use refusal::sheet_refusal;
pub use sizes::{Sizes, sizes_of};
pub use tested::Tested;
