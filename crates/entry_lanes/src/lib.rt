// The lanes of the entries, which the first pass over a slot reads. The queues after a slot come in blocks along which the last two totals
// rise together, and the number of the queue with an arrival rises along a block in steps that are known: a lane. So the lanes of all
// entries and blocks are worked out once per plan, in a table.
#![tactic(auto)]

mod entries;

pub use entries::{Entries, EntryLanes, fill_table};
