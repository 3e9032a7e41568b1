// The table that a pass over a row reads along the blocks of the row (table), whichever lanes it has (lanes), and the first queue of a block
// (block). What a row of values is, and what such a table says, is in specs/.
#![tactic(auto)]

mod block;
mod lanes;
mod table;

pub use block::first_queue;
pub use lanes::{Block, Head, Lanes};
pub use table::{Line, Table};
