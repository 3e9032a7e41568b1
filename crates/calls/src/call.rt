// The lines that make a call.
use crate::memory::Memory;
use crate::print::{Numbers, SheetText, StateText, checksum};
use crate::request::Call;
use reader::ReadSheet;
use std::io;
use stepper::Stepped;

// Makes a call with the lent places, and prints all that it answers.
pub fn make(rt: &impl Print, memory: &mut Memory, call: Call) -> io::Result<()> {
    let sheet = memory.sheet;
    match call {
        Call::Read => {
            let answer = reader::read(memory.bytes.lent());
            keep_sheet(rt, memory, answer)
        }
        Call::ReadPlan => {
            let answer = reader::read(memory.plan.lent());
            keep_sheet(rt, memory, answer)
        }
        Call::Write => {
            let answer = writer::write(sheet, memory.bytes.lent_mut());
            println!(rt; "write {}, length {}", answer.number, answer.length)
        }
        Call::Plan => plan(rt, memory),
        Call::Rule => {
            let answer = old_rule::rule(sheet, memory.plan.lent_mut());
            println!(rt; "rule {}, queues {}", answer.number, answer.queues)
        }
        Call::Price => price(rt, memory),
        Call::Row(slot) => {
            let row = layout::row(sheet, memory.plan.lent(), slot);
            println!(rt; "row {} bytes:{}", row.len(), Numbers(row))
        }
        Call::SumRow(slot) => {
            let row = layout::row(sheet, memory.plan.lent(), slot);
            println!(rt; "row {} bytes, sum {}", row.len(), checksum(row))
        }
        Call::List(least) => list(rt, memory, least.unwrap_or(memory.least)),
        Call::Start => {
            let answer = memory.state.start(sheet, memory.plan.lent());
            keep_state(rt, memory, "start", answer)
        }
        Call::Advance { size, deadline } => {
            let answer = memory
                .state
                .advance(sheet, memory.plan.lent(), size, deadline);
            keep_state(rt, memory, "advance", answer)
        }
    }
}

// What a read answered becomes the sheet.
fn keep_sheet(rt: &impl Print, memory: &mut Memory, answer: ReadSheet) -> io::Result<()> {
    memory.sheet = answer.sheet;
    println!(rt; "read {}, {}", answer.number, SheetText(&answer.sheet))
}

// Its least energy is kept for `list`.
fn plan(rt: &impl Print, memory: &mut Memory) -> io::Result<()> {
    let values = memory.values.lent_mut();
    let answer = planner::plan(memory.sheet, values, memory.plan.lent_mut());
    memory.least = answer.least;
    println!(rt;
        "plan {}, queues {}, least {}",
        answer.number, answer.queues, answer.least
    )
}

fn price(rt: &impl Print, memory: &mut Memory) -> io::Result<()> {
    let values = memory.values.lent_mut();
    let answer = pricing::price(memory.sheet, values, memory.plan.lent());
    println!(rt;
        "price {}, queues {}, price {}",
        answer.number, answer.queues, answer.price
    )
}

fn list(rt: &impl Print, memory: &mut Memory, least: u64) -> io::Result<()> {
    let bytes = memory.bytes.lent_mut();
    let answer = listing::list(memory.sheet, least, memory.plan.lent(), bytes);
    println!(rt; "list {}, length {}", answer.number, answer.length)
}

// The state that a start or an advance answered is kept.
fn keep_state(rt: &impl Print, memory: &mut Memory, name: &str, answer: Stepped) -> io::Result<()> {
    memory.state = answer.state;
    let state = StateText(&answer.state);
    println!(rt; "{name} {}, {state}, speed {}", answer.number, answer.speed)
}
