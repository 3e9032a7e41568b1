// Reads a script from standard input, a line for a call, and answers each line; docs/CALLS.md describes it. It is thin: what it calls is
// proved, and it only lends the memory. What it prints is tested and not proved.
#![tactic(auto)]

mod answer;
mod call;
mod input;
mod memory;
mod print;
mod problem;
mod request;
mod words;

use answer::answer_line;
use input::next_line;
use memory::Memory;
use request::LONGEST_LINE;
use std::io;
use std::io::BufReader;

// Says on standard error how many lines were not understood: `./run` then ends with status 1.
fn tell(rt: &impl Eprint, wrong: u64) -> io::Result<()> {
    match wrong {
        0 => Ok(()),
        1 => eprintln!(rt; "calls: 1 line was not understood"),
        _ => eprintln!(rt; "calls: {wrong} lines were not understood"),
    }
}

// Answers every line. The loop must be proved to end, and nothing says that a script does: so it counts its turns, up to a number that no
// run reaches. What a script needs of memory is taken before its first line, with room for the longest one, so that none is wanted later.
fn main(rt: HostRuntime) -> io::Result<()> {
    let alloc = rt.alloc();
    let mut memory = Memory::new(alloc)?;
    let mut input = BufReader::new(alloc, rt.reader())?;
    let mut line = Vec::with_capacity(alloc, LONGEST_LINE + 1)?;
    for _ in 0..u64::MAX {
        if !next_line(&mut input, &mut line)? {
            break;
        }
        answer_line(&rt, &mut memory, line.as_slice())?;
    }
    tell(&rt, memory.wrong)
}
