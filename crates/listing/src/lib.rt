// The listing of a planned sheet, put into lent bytes: the call (call), and the whole that it writes (whole). Its parts are in crates of their
// own, decimals and lines.
//
// The call takes every input: any sheet in memory, any plan bytes, any buffer. What it refuses, it refuses with a number.
#![tactic(auto)]

mod call;
mod whole;

pub use call::{Listed, list};
