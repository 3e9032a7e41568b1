// What is wrong with a line, in the words of the last table of docs/CALLS.md; and what can keep a line from being answered.
use std::{fmt, io};

// Words are counted from 1.
#[derive(Clone, Copy)]
pub enum Problem {
    TooLong { most: usize },
    Unknown,
    Missing { word: u64 },
    NoNumber { word: u64, most: u64 },
    NoByte { word: u64 },
    TooMany { word: u64 },
    NotLent { lent: usize },
}

impl fmt::Display for Problem {
    fn fmt<W: fmt::Write>(&self, f: &mut fmt::Formatter<W>) -> fmt::Result {
        match *self {
            Problem::TooLong { most } => write!(f, "the line is longer than {most} bytes"),
            Problem::Unknown => write!(f, "no line begins so"),
            Problem::Missing { word } => write!(f, "word {word} is missing"),
            Problem::NoNumber { word, most } => {
                write!(f, "word {word} is not a number from 0 to {most}")
            }
            Problem::NoByte { word } => write!(f, "word {word} is not a byte of two hex digits"),
            Problem::TooMany { word } => write!(f, "word {word} is one too many"),
            Problem::NotLent { lent } => write!(f, "only {lent} places are lent"),
        }
    }
}

// A line that is not understood is answered, and the script goes on; any other failure ends it. (`console::Stop` is of calls that refuse, and
// has their number; no call that refuses ends a script.)
#[derive(Drop)]
pub enum Failure {
    NotUnderstood(Problem),
    Io(io::Error),
}

impl From<Problem> for Failure {
    fn from(problem: Problem) -> Failure {
        Failure::NotUnderstood(problem)
    }
}

impl From<io::Error> for Failure {
    fn from(error: io::Error) -> Failure {
        Failure::Io(error)
    }
}
