// What the programs share: a sheet from standard input, the listing in lent bytes, and how a program ends that was refused.
#![tactic(auto)]

ghost use Rattle.std.specs.Prelude.{◌≡◌, ◌≤◌, length, IfOk, MatchResult};
ghost use Rattle.console.specs.Ends.{HasBytes, EndsAs};

use model::Sheet;
use std::io;
use std::io::Read;

// Why a program goes no further: a call refused with this number, or input or output failed. (A number, since 01 has calls answer one.)
#[derive(Debug, Drop)]
pub enum Stop {
    Refused(u32),
    Failed(io::Error),
}

impl From<io::Error> for Stop {
    fn from(error: io::Error) -> Stop {
        Stop::Failed(error)
    }
}

// Goes on where a call answered with the number 0.
pub fn accepted(number: u32) -> Result<(), Stop>
    ensures { MatchResult result (λ _. number ≡ 0) (λ stop. stop ≡ Stop.Refused number) }
{
    match number {
        0 => Ok(()),
        _ => Err(Stop::Refused(number)),
    }
}

// Reads a sheet from standard input. More than 512 bytes are never a sheet: the first 512 are read, and refused.
pub fn read_sheet(rt: &(impl Input + Alloc)) -> Result<Sheet, Stop>
    ensures { IfOk result HasBytes }
{
    let mut bytes = Vec::new(rt.alloc());
    rt.reader().take(512).read_to_end(&mut bytes)?;
    let read = reader::read(bytes.as_slice());
    accepted(read.number)?;
    Ok(read.sheet)
}

// The listing of a planned sheet, put into lent bytes.
pub fn listing<'a>(
    sheet: Sheet,
    least: u64,
    plan: &[u8],
    text: &'a mut [u8],
) -> Result<&'a [u8], Stop>
    ensures { IfOk result (λ listing. length listing.now ≤ length text.old) }
{
    let listed = listing::list(sheet, least, plan, text);
    accepted(listed.number)?;
    Ok(&text[..listed.length])
}

// Ends a program: where it was refused, by the one line of that refusal, written all at once.
pub fn end(rt: &impl Print, done: Result<(), Stop>) -> io::Result<()>
    ensures { EndsAs done result }
{
    match done {
        Ok(()) => Ok(()),
        Err(Stop::Failed(error)) => Err(error),
        Err(Stop::Refused(number)) => {
            let mut line = [0u8; 29];
            let length = decimals::put_refused(&mut line, number);
            rt.write_all(&line[..length])
        }
    }
}
