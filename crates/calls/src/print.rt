// What is printed of numbers, bytes, a sheet and a state; and the checksum.
ghost use Rattle.std.specs.Prelude.{◌<◌};

use model::Sheet;
use std::fmt;
use std::fmt::Display;
use stepper::State;

// A space and a number, of each.
#[derive(Drop)]
pub struct Numbers<'a, T>(pub &'a [T]);

impl<T: Display> Display for Numbers<'_, T> {
    fn fmt<W: fmt::Write>(&self, f: &mut fmt::Formatter<W>) -> fmt::Result {
        for number in self.0 {
            write!(f, " {number}")?;
        }
        Ok(())
    }
}

// A space and two hex digits, of each.
#[derive(Drop)]
pub struct HexBytes<'a>(pub &'a [u8]);

impl Display for HexBytes<'_> {
    fn fmt<W: fmt::Write>(&self, f: &mut fmt::Formatter<W>) -> fmt::Result {
        for byte in self.0 {
            write!(f, " {byte:02x}")?;
        }
        Ok(())
    }
}

// Bytes as text: a line feed and what can be printed as it is, any other byte as a question mark.
#[derive(Drop)]
pub struct Text<'a>(pub &'a [u8]);

impl Display for Text<'_> {
    fn fmt<W: fmt::Write>(&self, f: &mut fmt::Formatter<W>) -> fmt::Result {
        for byte in self.0 {
            match *byte {
                b'\n' | b' '..=b'~' => write!(f, "{}", char::from(*byte))?,
                _ => write!(f, "?")?,
            }
        }
        Ok(())
    }
}

// The numbers of all speeds, in the order of a sheet's bytes.
pub fn speed_numbers(sheet: &Sheet) -> [[u32; 2]; 9] {
    sheet.speeds.map(|one| [one.speed, one.energy])
}

// The numbers of all jobs, likewise.
pub fn job_numbers(sheet: &Sheet) -> [[u32; 3]; 32] {
    sheet.jobs.map(|one| [one.weight, one.size, one.deadline])
}

// The entries that count, and the others.
fn split<T>(entries: &[T], count: u32) -> (&[T], &[T]) {
    entries.split_at(entries.len().min(count as usize))
}

fn count_others(numbers: &[u32]) -> usize {
    numbers.iter().filter(|number| **number != 0).count()
}

// A sheet's fields in the order of its bytes, and how many numbers past the counts are not 0.
#[derive(Drop)]
pub struct SheetText<'a>(pub &'a Sheet);

impl Display for SheetText<'_> {
    fn fmt<W: fmt::Write>(&self, f: &mut fmt::Formatter<W>) -> fmt::Result {
        let sheet = self.0;
        let speeds = speed_numbers(sheet);
        let jobs = job_numbers(sheet);
        let (speeds, other_speeds) = split(&speeds, sheet.speed_count);
        let (jobs, other_jobs) = split(&jobs, sheet.job_count);
        let others = count_others(other_speeds.as_flattened()).saturating_add(count_others(
            other_jobs.as_flattened(),
        ));
        let speeds = Numbers(speeds.as_flattened());
        let jobs = Numbers(jobs.as_flattened());
        write!(f, "sheet {} {}{speeds}", sheet.bound, sheet.speed_count)?;
        write!(
            f,
            " {} {}{jobs}, others {others}",
            sheet.horizon, sheet.job_count
        )
    }
}

#[derive(Drop)]
pub struct StateText<'a>(pub &'a State);

impl Display for StateText<'_> {
    fn fmt<W: fmt::Write>(&self, f: &mut fmt::Formatter<W>) -> fmt::Result {
        let state = self.0;
        let queue = Numbers(&state.queue);
        write!(
            f,
            "queue{queue}, slot {}, energy {}",
            state.slot, state.energy
        )
    }
}

const MODULUS: u64 = 4294967291;

// It is below the modulus, and so fits 32 bits.
pub fn checksum<T: Copy + Into<u64>>(numbers: &[T]) -> u32
    ensures { result < 4294967291 }
{
    let sum = numbers.iter().fold(0, |sum: u64, number| {
        let number: u64 = (*number).into();
        sum % MODULUS * 1000003 + number % MODULUS
    });
    (sum % MODULUS) as u32
}
