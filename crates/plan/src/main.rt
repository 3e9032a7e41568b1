// The planning program: reads a sheet from standard input, plans it, and writes the listing, or `refused n`. It is thin: the reader, the
// planner and the listing are proved, and it only lends them memory.
#![tactic(auto)]

use console::{Stop, accepted, end, listing, read_sheet};
use std::io;

// Plans a sheet and writes the listing, all at once. It takes at most 66 bytes, five for each slot and four for each plan byte. 8,000 values
// leave room for fewer than 8,000 plan bytes, and there are at most 200 slots, so that 40,000 bytes are enough.
fn print_plan(rt: &(impl Input + Alloc + Print)) -> Result<(), Stop> {
    let sheet = read_sheet(rt)?;
    let mut values = [0u64; 8000];
    let mut plan = [0u8; 60000];
    let answer = planner::plan(sheet, &mut values, &mut plan);
    accepted(answer.number)?;
    let mut text = [0u8; 40000];
    rt.write_all(listing(sheet, answer.least, &plan, &mut text)?)?;
    Ok(())
}

fn main(rt: HostRuntime) -> io::Result<()> {
    end(&rt, print_plan(&rt))
}
