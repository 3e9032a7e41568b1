// One line of a script: what answers it.
use crate::call::make;
use crate::memory::{Memory, zero_sheet};
use crate::print::{
    HexBytes, Numbers, SheetText, StateText, Text, checksum, job_numbers, speed_numbers,
};
use crate::problem::{Failure, Problem};
use crate::request::{Buffer, Field, Request, Shown, request_of};
use crate::words::Word;
use std::io;
use std::ops::Range;

// Answers a line, and counts it where it is not understood.
pub fn answer_line(rt: &impl Print, memory: &mut Memory, line: &[u8]) -> io::Result<()> {
    match answer(rt, memory, line) {
        Ok(()) => Ok(()),
        Err(Failure::NotUnderstood(problem)) => {
            memory.wrong = memory.wrong.saturating_add(1);
            println!(rt; "not understood: {problem}")
        }
        Err(Failure::Io(error)) => Err(error),
    }
}

// Answers a line that is understood. Where it is not, nothing is changed and nothing printed.
fn answer(rt: &impl Print, memory: &mut Memory, line: &[u8]) -> Result<(), Failure> {
    match request_of(line)? {
        Request::Nothing => println!(rt)?,
        Request::Copy(line) => {
            rt.write_all(line)?;
            println!(rt)?;
        }
        Request::Clear => memory.sheet = zero_sheet(),
        Request::Set(field) => set(memory, field),
        Request::Lend(Buffer::Values, count) => memory.values.lend(count),
        Request::Lend(Buffer::Plan, count) => memory.plan.lend(count),
        Request::Lend(Buffer::Bytes, count) => memory.bytes.lend(count),
        Request::FillValues(value) => memory.values.lent_mut().fill(value),
        Request::FillPlan(byte) => memory.plan.lent_mut().fill(byte),
        Request::FillBytes(byte) => memory.bytes.lent_mut().fill(byte),
        Request::PutValues(place, words) => memory.values.put(place, words, Word::value)?,
        Request::PutPlan(place, words) => memory.plan.put(place, words, Word::byte)?,
        Request::PutBytes(place, words) => memory.bytes.put(place, words, Word::hex_byte)?,
        Request::Bytes(words) => {
            memory.bytes.lend(words.count());
            memory.bytes.put(0, words, Word::hex_byte)?;
        }
        Request::Show(shown) => show(rt, memory, shown)?,
        Request::Sum(buffer, part) => {
            let sum = sum(memory, buffer, part)?;
            println!(rt; "sum {sum}")?;
        }
        Request::Call(call) => make(rt, memory, call)?,
    }
    Ok(())
}

// Puts one field of the sheet, an entry of it or the state.
fn set(memory: &mut Memory, field: Field) {
    match field {
        Field::Bound(bound) => memory.sheet.bound = bound,
        Field::SpeedCount(count) => memory.sheet.speed_count = count,
        Field::Horizon(horizon) => memory.sheet.horizon = horizon,
        Field::JobCount(count) => memory.sheet.job_count = count,
        Field::Speed(place, speed) => {
            if let Some(entry) = memory.sheet.speeds.get_mut(place) {
                *entry = speed;
            }
        }
        Field::Job(place, job) => {
            if let Some(entry) = memory.sheet.jobs.get_mut(place) {
                *entry = job;
            }
        }
        Field::State(state) => memory.state = state,
    }
}

// Prints what stands in memory.
fn show(rt: &impl Print, memory: &Memory, shown: Shown) -> Result<(), Failure> {
    let sheet = &memory.sheet;
    match shown {
        Shown::Sheet => println!(rt; "{}", SheetText(sheet))?,
        Shown::Speeds => println!(rt; "speeds{}", Numbers(speed_numbers(sheet).as_flattened()))?,
        Shown::Jobs => println!(rt; "jobs{}", Numbers(job_numbers(sheet).as_flattened()))?,
        Shown::State => println!(rt; "state, {}", StateText(&memory.state))?,
        Shown::Values(part) => println!(rt; "values{}", Numbers(memory.values.part(part)?))?,
        Shown::Plan(part) => println!(rt; "plan{}", Numbers(memory.plan.part(part)?))?,
        Shown::Bytes(part) => println!(rt; "bytes{}", HexBytes(memory.bytes.part(part)?))?,
        Shown::Text(part) => show_text(rt, memory.bytes.part(part)?)?,
    }
    Ok(())
}

// Prints a text, and then a line feed unless it ends in one, or is empty.
fn show_text(rt: &impl Print, text: &[u8]) -> io::Result<()> {
    print!(rt; "{}", Text(text))?;
    match text.last() {
        None | Some(b'\n') => Ok(()),
        Some(_) => println!(rt),
    }
}

// The checksum of lent places.
fn sum(memory: &Memory, buffer: Buffer, part: Range<usize>) -> Result<u32, Problem> {
    Ok(match buffer {
        Buffer::Values => checksum(memory.values.part(part)?),
        Buffer::Plan => checksum(memory.plan.part(part)?),
        Buffer::Bytes => checksum(memory.bytes.part(part)?),
    })
}
