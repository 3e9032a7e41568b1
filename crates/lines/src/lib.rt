// The parts of a listing, put into a sink: the header (header), and a line for each slot (lines). Every function here is internal: its
// callers have tested the sheet and the lengths of what is lent.
#![tactic(auto)]

mod header;
mod lines;

pub use header::{Header, scale_of};
pub use lines::put_lines;
