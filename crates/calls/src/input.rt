// Standard input, line by line.
use crate::request::LONGEST_LINE;
use std::io;
use std::io::{BufRead, Read};

// Reads the next line, without its line feed; answers whether there was one. Of a line that is too long a byte more is read than may stand
// there, so that it can be told, and the rest is skipped.
pub fn next_line(input: &mut impl BufRead, line: &mut Vec<u8>) -> io::Result<bool> {
    line.clear();
    let most = LONGEST_LINE as u64 + 1;
    let length = input.by_ref().take(most).read_until(b'\n', line)?;
    if line.last() == Some(&b'\n') {
        line.pop();
    } else if LONGEST_LINE < length {
        input.skip_until(b'\n')?;
    }
    Ok(length != 0)
}
