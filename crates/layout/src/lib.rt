// Where plan bytes and values stand in lent memory, for every crate that looks there: the place of a slot and a queue, whether a lent plan is
// long enough (rooms), the row of a slot and the look-up of a plan byte (bytes), and the call `row` (call).
#![tactic(auto)]

mod bytes;
mod call;
mod rooms;

pub use bytes::{byte_of_queue, row_of};
pub use call::row;
pub use rooms::{place, tested_for};
