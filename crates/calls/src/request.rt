// What a line asks for: its words are taken from the left, until one is wrong.
use crate::memory::{BYTES, PLAN_BYTES, VALUES};
use crate::problem::Problem;
use crate::words::{Word, Words};
use model::{Job, Speed};
use std::ops::Range;
use stepper::State;

// A line feed that ends a line is not counted.
pub const LONGEST_LINE: usize = 65536;

// `Nothing` is asked by a line without words, and `Copy` by one that begins with `#`; the others have the names of their words. What is put
// into places comes with the first of them, as the words that say it.
#[derive(Drop)]
pub enum Request<'a> {
    Nothing,
    Copy(&'a [u8]),
    Clear,
    Set(Field),
    Lend(Buffer, usize),
    FillValues(u64),
    FillPlan(u8),
    FillBytes(u8),
    PutValues(usize, Words<'a>),
    PutPlan(usize, Words<'a>),
    PutBytes(usize, Words<'a>),
    Bytes(Words<'a>),
    Show(Shown),
    Sum(Buffer, Range<usize>),
    Call(Call),
}

#[derive(Clone, Copy)]
pub enum Buffer {
    Values,
    Plan,
    Bytes,
}

// A field of the sheet, one of its entries by the place of it, or the state.
#[derive(Clone, Copy)]
pub enum Field {
    Bound(u32),
    SpeedCount(u32),
    Horizon(u32),
    JobCount(u32),
    Speed(usize, Speed),
    Job(usize, Job),
    State(State),
}

#[derive(Drop)]
pub enum Shown {
    Sheet,
    Speeds,
    Jobs,
    State,
    Values(Range<usize>),
    Plan(Range<usize>),
    Bytes(Range<usize>),
    Text(Range<usize>),
}

#[derive(Clone, Copy)]
pub enum Call {
    Read,
    ReadPlan,
    Write,
    Plan,
    Rule,
    Price,
    Row(u32),
    SumRow(u32),
    List(Option<u64>),
    Start,
    Advance { size: u32, deadline: u32 },
}

impl Buffer {
    fn named(word: &[u8]) -> Result<Buffer, Problem> {
        match word {
            b"values" => Ok(Buffer::Values),
            b"plan" => Ok(Buffer::Plan),
            b"bytes" => Ok(Buffer::Bytes),
            _ => Err(Problem::Unknown),
        }
    }

    // How many places it has.
    fn places(self) -> usize {
        match self {
            Buffer::Values => VALUES,
            Buffer::Plan => PLAN_BYTES,
            Buffer::Bytes => BYTES,
        }
    }

    // A place of it, or a count of places.
    fn place(self, words: &mut Words) -> Result<usize, Problem> {
        Ok(words.number(self.places() as u64)? as usize)
    }

    // Places of it: the first one, and how many there are.
    fn part(self, words: &mut Words) -> Result<Range<usize>, Problem> {
        let from = self.place(words)?;
        let count = self.place(words)?;
        Ok(from..from.saturating_add(count))
    }
}

// What a line asks for, or what is wrong with it.
pub fn request_of(line: &[u8]) -> Result<Request<'_>, Problem> {
    if LONGEST_LINE < line.len() {
        return Err(Problem::TooLong { most: LONGEST_LINE });
    }
    if line.first() == Some(&b'#') {
        return Ok(Request::Copy(line));
    }
    let mut words = Words::of(line);
    let Some(name) = words.next() else {
        return Ok(Request::Nothing);
    };
    let request = named(name.text, &mut words)?;
    words.end()?;
    Ok(request)
}

// The request of a line with this first word, of whose other words it takes what it needs.
fn named<'a>(name: &[u8], words: &mut Words<'a>) -> Result<Request<'a>, Problem> {
    let request = match name {
        b"clear" => Request::Clear,
        b"set" => Request::Set(field_of(object(words)?, words)?),
        b"lend" => {
            let buffer = Buffer::named(object(words)?)?;
            Request::Lend(buffer, buffer.place(words)?)
        }
        b"fill" => fill_of(Buffer::named(object(words)?)?, words)?,
        b"put" => put_of(Buffer::named(object(words)?)?, words)?,
        b"bytes" => Request::Bytes(words.all(Word::hex_byte)?),
        b"show" => Request::Show(shown_of(object(words)?, words)?),
        b"sum" => sum_of(object(words)?, words)?,
        _ => Request::Call(call_of(name, words)?),
    };
    Ok(request)
}

// The second word, which says with the first what a line asks for.
fn object<'a>(words: &mut Words<'a>) -> Result<&'a [u8], Problem> {
    Ok(words.next().ok_or(Problem::Unknown)?.text)
}

// A sheet has places for nine speeds and 32 jobs.
fn field_of(object: &[u8], words: &mut Words) -> Result<Field, Problem> {
    let field = match object {
        b"bound" => Field::Bound(words.narrow()?),
        b"speeds" => Field::SpeedCount(words.narrow()?),
        b"horizon" => Field::Horizon(words.narrow()?),
        b"jobs" => Field::JobCount(words.narrow()?),
        b"speed" => Field::Speed(
            words.number(8)? as usize,
            Speed {
                speed: words.narrow()?,
                energy: words.narrow()?,
            },
        ),
        b"job" => Field::Job(
            words.number(31)? as usize,
            Job {
                weight: words.narrow()?,
                size: words.narrow()?,
                deadline: words.narrow()?,
            },
        ),
        b"state" => Field::State(state_of(words)?),
        _ => return Err(Problem::Unknown),
    };
    Ok(field)
}

fn state_of(words: &mut Words) -> Result<State, Problem> {
    let mut queue = [0; 6];
    for total in &mut queue {
        *total = words.narrow()?;
    }
    Ok(State {
        queue,
        slot: words.narrow()?,
        energy: words.narrow()?,
    })
}

fn fill_of<'a>(buffer: Buffer, words: &mut Words) -> Result<Request<'a>, Problem> {
    let word = words.needed()?;
    Ok(match buffer {
        Buffer::Values => Request::FillValues(word.value()?),
        Buffer::Plan => Request::FillPlan(word.byte()?),
        Buffer::Bytes => Request::FillBytes(word.hex_byte()?),
    })
}

fn put_of<'a>(buffer: Buffer, words: &mut Words<'a>) -> Result<Request<'a>, Problem> {
    let place = buffer.place(words)?;
    // At least one number must follow.
    let mut ahead = *words;
    ahead.needed()?;
    Ok(match buffer {
        Buffer::Values => Request::PutValues(place, words.all(Word::value)?),
        Buffer::Plan => Request::PutPlan(place, words.all(Word::byte)?),
        Buffer::Bytes => Request::PutBytes(place, words.all(Word::hex_byte)?),
    })
}

fn shown_of(object: &[u8], words: &mut Words) -> Result<Shown, Problem> {
    let shown = match object {
        b"sheet" => Shown::Sheet,
        b"speeds" => Shown::Speeds,
        b"jobs" => Shown::Jobs,
        b"state" => Shown::State,
        b"values" => Shown::Values(Buffer::Values.part(words)?),
        b"plan" => Shown::Plan(Buffer::Plan.part(words)?),
        b"bytes" => Shown::Bytes(Buffer::Bytes.part(words)?),
        b"text" => Shown::Text(Buffer::Bytes.part(words)?),
        _ => return Err(Problem::Unknown),
    };
    Ok(shown)
}

fn sum_of<'a>(object: &[u8], words: &mut Words) -> Result<Request<'a>, Problem> {
    Ok(match object {
        b"row" => Request::Call(Call::SumRow(words.narrow()?)),
        _ => {
            let buffer = Buffer::named(object)?;
            Request::Sum(buffer, buffer.part(words)?)
        }
    })
}

// Any other word begins no line.
fn call_of(name: &[u8], words: &mut Words) -> Result<Call, Problem> {
    let call = match name {
        b"read" => match words.next() {
            None => Call::Read,
            Some(Word { text: b"plan", .. }) => Call::ReadPlan,
            Some(word) => return Err(word.one_too_many()),
        },
        b"write" => Call::Write,
        b"plan" => Call::Plan,
        b"rule" => Call::Rule,
        b"price" => Call::Price,
        b"row" => Call::Row(words.narrow()?),
        b"list" => match words.next() {
            None => Call::List(None),
            Some(word) => Call::List(Some(word.value()?)),
        },
        b"start" => Call::Start,
        b"advance" => Call::Advance {
            size: words.narrow()?,
            deadline: words.narrow()?,
        },
        _ => return Err(Problem::Unknown),
    };
    Ok(call)
}
