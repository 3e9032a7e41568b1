// The words of a line, and the number that a word says.
ghost use Rattle.std.specs.Prelude.{◌≤◌, length, IfOk};
ghost use Rattle.std.specs.Iterator.{at_most};

use crate::problem::Problem;

// A word, and which word of its line it is, counted from 1.
#[derive(Clone, Copy)]
pub struct Word<'a> {
    pub count: u64,
    pub text: &'a [u8],
}

impl Word<'_> {
    // The number that it says in decimal digits.
    pub fn number(self, most: u64) -> Result<u64, Problem>
        ensures { IfOk result (λ number. number ≤ most) }
    {
        match decimal(self.text) {
            Some(number) if number <= most => Ok(number),
            _ => Err(Problem::NoNumber {
                word: self.count,
                most,
            }),
        }
    }

    // A value is any number of 64 bits.
    pub fn value(self) -> Result<u64, Problem> {
        self.number(u64::MAX)
    }

    pub fn byte(self) -> Result<u8, Problem> {
        Ok(self.number(u64::from(u8::MAX))? as u8)
    }

    // The byte that it says in two hex digits.
    pub fn hex_byte(self) -> Result<u8, Problem> {
        hex_byte(self.text).ok_or(Problem::NoByte { word: self.count })
    }

    pub fn one_too_many(self) -> Problem {
        Problem::TooMany { word: self.count }
    }
}

// The number that decimal digits alone say, where it fits 64 bits. `parse` takes a sign, too.
fn decimal(text: &[u8]) -> Option<u64> {
    if !text.iter().all(u8::is_ascii_digit) {
        return None;
    }
    str::from_utf8(text).ok()?.parse().ok()
}

// The byte that two hex digits say. `from_str_radix` takes a sign, too.
fn hex_byte(text: &[u8]) -> Option<u8> {
    if text.len() != 2 || !text.iter().all(u8::is_ascii_hexdigit) {
        return None;
    }
    u8::from_str_radix(str::from_utf8(text).ok()?, 16).ok()
}

// The words that are left of a line, and how many were taken. Only spaces stand between words.
// (A `split` by a closure has no type that a function here could name, and does not count the words.)
#[derive(Clone, Copy)]
pub struct Words<'a> {
    rest: &'a [u8],
    taken: u64,
}

impl<'a> Iterator for Words<'a> {
    type Item = Word<'a>;

    ghost remaining = { λ words. at_most (length words.rest.now) };

    fn next(&mut self) -> Option<Word<'a>> {
        let start = self.rest.iter().position(|byte| *byte != b' ')?;
        let rest = &self.rest[start..];
        let end = rest
            .iter()
            .position(|byte| *byte == b' ')
            .unwrap_or(rest.len());
        self.rest = &rest[end..];
        self.taken = self.taken.saturating_add(1);
        Some(Word {
            count: self.taken,
            text: &rest[..end],
        })
    }
}

impl<'a> Words<'a> {
    pub fn of(line: &'a [u8]) -> Words<'a> {
        Words {
            rest: line,
            taken: 0,
        }
    }

    // The next word, which must be there.
    pub fn needed(&mut self) -> Result<Word<'a>, Problem> {
        self.next().ok_or(Problem::Missing {
            word: self.taken.saturating_add(1),
        })
    }

    pub fn number(&mut self, most: u64) -> Result<u64, Problem>
        ensures { IfOk result (λ number. number ≤ most) }
    {
        self.needed()?.number(most)
    }

    // A number of 32 bits.
    pub fn narrow(&mut self) -> Result<u32, Problem> {
        Ok(self.number(u64::from(u32::MAX))? as u32)
    }

    // Nothing may stand behind what was taken.
    pub fn end(&mut self) -> Result<(), Problem> {
        match self.next() {
            Some(word) => Err(word.one_too_many()),
            None => Ok(()),
        }
    }

    // All words that are left, once each of them can be read in this way. They are handed on as words, and read again where they are put: so
    // a line asks for no memory.
    pub fn all<T: Drop, F: Fn(Word<'a>) -> Result<T, Problem>>(
        &mut self,
        read: F,
    ) -> Result<Words<'a>, Problem>
        requires { F.IsAlwaysCallable read }
    {
        let words = *self;
        for word in self {
            read(word)?;
        }
        Ok(words)
    }
}
