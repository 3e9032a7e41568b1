// What one line leaves, and the next one uses.
ghost use Rattle.std.specs.Prelude.{◌≤◌, vec_len};

use crate::problem::Problem;
use crate::words::{Word, Words};
use model::{Job, Sheet, Speed};
use std::alloc::{AllocError, Global};
use std::ops::Range;
use stepper::State;

// How many places there are of each kind.
pub const VALUES: usize = 816816;

pub const PLAN_BYTES: usize = 1000000;

pub const BYTES: usize = 65536;

// Places of which the first ones are lent. A place that is not lent keeps what it holds.
#[derive(Drop)]
pub struct Places<T> {
    all: Vec<T>,
    lent: usize,
    ghost within: { lent ≤ vec_len all },
}

impl<T: Copy + Drop> Places<T> {
    pub fn new(all: Vec<T>) -> Places<T> {
        Places { all, lent: 0 }
    }

    pub fn lend(&mut self, count: usize) {
        self.lent = count.min(self.all.len());
    }

    pub fn lent(&self) -> &[T] {
        &self.all.as_slice()[..self.lent]
    }

    pub fn lent_mut(&mut self) -> &mut [T] {
        let lent = self.lent;
        &mut self.all.as_mut_slice()[..lent]
    }

    // These places, where all of them are lent.
    pub fn part(&self, part: Range<usize>) -> Result<&[T], Problem> {
        self.lent()
            .get(part)
            .ok_or(Problem::NotLent { lent: self.lent })
    }

    // Puts what these words say into the places from one on, where all of them are lent.
    pub fn put<'a, F: Fn(Word<'a>) -> Result<T, Problem>>(
        &mut self,
        from: usize,
        words: Words<'a>,
        read: F,
    ) -> Result<(), Problem>
        requires { F.IsAlwaysCallable read }
    {
        let refused = Problem::NotLent { lent: self.lent };
        let (_, places) = self.lent_mut().split_at_mut_checked(from).ok_or(refused)?;
        let places = places.get_mut(..words.count()).ok_or(refused)?;
        for (place, word) in places.iter_mut().zip(words) {
            *place = read(word)?;
        }
        Ok(())
    }
}

// The sheet and the state, the least energy of the last plan, what is lent to calls, and how many lines were not understood.
#[derive(Drop)]
pub struct Memory {
    pub sheet: Sheet,
    pub state: State,
    pub least: u64,
    pub values: Places<u64>,
    pub plan: Places<u8>,
    pub bytes: Places<u8>,
    pub wrong: u64,
}

impl Memory {
    // All of it is zero, and nothing is lent.
    pub fn new(alloc: Global) -> Result<Memory, AllocError> {
        Ok(Memory {
            sheet: zero_sheet(),
            state: State {
                queue: [0; 6],
                slot: 0,
                energy: 0,
            },
            least: 0,
            values: Places::new(vec![in alloc; 0u64; VALUES]?),
            plan: Places::new(vec![in alloc; 0u8; PLAN_BYTES]?),
            bytes: Places::new(vec![in alloc; 0u8; BYTES]?),
            wrong: 0,
        })
    }
}

pub fn zero_sheet() -> Sheet {
    Sheet {
        bound: 0,
        speed_count: 0,
        speeds: [Speed {
            speed: 0,
            energy: 0,
        }; 9],
        horizon: 0,
        job_count: 0,
        jobs: [Job {
            weight: 0,
            size: 0,
            deadline: 0,
        }; 32],
    }
}
