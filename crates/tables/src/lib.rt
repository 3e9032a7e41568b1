// The tables of a sheet's bytes: one speed with its energy, one job, and as many of them as their count says.
#![tactic(auto)]

ghost use Rattle.std.specs.Prelude.{◌≡◌, ◌≤◌, ℕ, Bool, List, true};
ghost use Rattle.fields.specs.Answers.{answer};
ghost use Rattle.tables.specs.Tables.{IsTable, in_memory};
ghost use Rattle.tables.specs.Laws.{speeds_mean, jobs_mean, speeds_fit, jobs_fit};
ghost use Rattle.model.specs.View.{zero_speed, zero_job};
ghost use Rattle.model.specs.Reading.{Reader, read_speed, read_speeds, read_speed_table, read_job, read_jobs, read_job_table};
ghost use Rattle.model.specs.Refusal.{speed_count_right, job_count_right};
ghost use Rattle.refusals.specs.Numbers.{number_of_refusal};
ghost use Rattle.refusals.specs.declared.Refusal.{Refusal};
ghost use Rattle.refusals.specs.declared.Refusal.TheVariants as refusal;

use fields::{Read, field_at};
use model::{Job, Speed};
use ranges::{
    deadline_right, energy_right, job_count_right, size_right, speed_count_right, speed_right,
    weight_right,
};
use refusals::Refusal;

// A table in memory: its count, and its places, zero past the count.
pub type Table<T, const N: usize> = (u32, [T; N]);

// A kind of table with N places: how its count is tested, and how one of its entries is read. The ghost members say which readers of the
// model these are, and the laws what a table is made of.
pub trait Entries<const N: usize> {
    type Entry: Copy;

    // The reader of the entry at a place, after the entry before it.
    ghost one: { Self → ℕ → Self.Entry → Reader Self.Entry };

    // The reader of so many entries, from a place on, after the entry before it.
    ghost all: { Self → ℕ → ℕ → Self.Entry → Reader (List Self.Entry) };

    // The reader of the table.
    ghost table: { Self → Reader (List Self.Entry) };

    ghost count_right: { ℕ → Bool };

    // What stands in a place past the count, and before the first entry.
    const NONE: Self::Entry;

    ghost NONE: { Self.Entry };

    // What a count out of its range is refused with.
    const COUNT_REFUSAL: Refusal;

    ghost COUNT_REFUSAL: { Refusal };

    // The count of entries.
    fn count_right(count: u32) -> bool
        ensures { result ≡ count_right count };

    // The entry at a place of the table, after the entry before it.
    fn entry_at(
        &self,
        bytes: &[u8],
        at: usize,
        place: u32,
        before: Self::Entry,
    ) -> Read<Self::Entry>
        ensures { answer result ≡ one self.now place before bytes.now at };

    ghost count_fits: { (n : ℕ) → count_right n ≡ true → n ≤ N };

    ghost means: { (kind : Self) → IsTable NONE count_right (number_of_refusal COUNT_REFUSAL) (one kind) (all kind) (table kind) };
}

// Reads so many entries.
fn entries_at<E: Entries<N>, const N: usize>(
    kind: &E,
    bytes: &[u8],
    at: usize,
    count: u32,
) -> Read<Table<E::Entry, N>>
    requires { count ≤ N }
    ensures { answer result ≡ in_memory N E.NONE (E.all kind.now count 0 E.NONE bytes.now at) }
{
    let mut entries = [E::NONE; N];
    let mut before = E::NONE;
    let mut next = at;
    // An entry is read by its place, so the loop goes over the places.
    for place in 0..count {
        let (entry, after) = kind.entry_at(bytes, next, place, before)?;
        entries[place as usize] = entry;
        before = entry;
        next = after;
    }
    Ok(((count, entries), next))
}

// A table: the count of entries, and the entries.
pub fn table_at<E: Entries<N>, const N: usize>(
    kind: &E,
    bytes: &[u8],
    at: usize,
) -> Read<Table<E::Entry, N>>
    ensures { answer result ≡ in_memory N E.NONE (E.table kind.now bytes.now at) }
{
    // 01 names this form: each sheet field taken apart by `let .. else`, its refusal returned at once.
    let answer = field_at(bytes, at);
    let Ok((count, next)) = answer else {
        return Err(answer.unwrap_err());
    };
    if !E::count_right(count) {
        return Err(E::COUNT_REFUSAL);
    }
    entries_at(kind, bytes, next, count)
}

// The speeds of a sheet with their energies.
#[derive(Clone, Copy)]
pub struct Speeds;

impl Entries<9> for Speeds {
    type Entry = Speed;

    ghost one = { λ _ place before. read_speed place before.speed };

    ghost all = { λ _ left place before. read_speeds left place before.speed };

    ghost table = { λ _. read_speed_table };

    ghost count_right = { speed_count_right };

    const NONE: Speed = Speed {
        speed: 0,
        energy: 0,
    };

    ghost NONE = { zero_speed };

    const COUNT_REFUSAL: Refusal = Refusal::Speeds;

    ghost COUNT_REFUSAL = { refusal.Speeds };

    fn count_right(count: u32) -> bool {
        speed_count_right(count)
    }

    #[tactic(auto, unfolding(model::specs::Reading::read_speed))]
    fn entry_at(&self, bytes: &[u8], at: usize, place: u32, before: Speed) -> Read<Speed> {
        let answer = field_at(bytes, at);
        let Ok((speed, next)) = answer else {
            return Err(answer.unwrap_err());
        };
        if !speed_right(place, before.speed, speed) {
            return Err(Refusal::Speeds);
        }
        let answer = field_at(bytes, next);
        let Ok((energy, next)) = answer else {
            return Err(answer.unwrap_err());
        };
        if !energy_right(energy) {
            return Err(Refusal::Energy);
        }
        Ok((Speed { speed, energy }, next))
    }

    ghost count_fits = { speeds_fit };

    ghost means = { λ _. speeds_mean };
}

// The jobs of a sheet with this deadline bound.
#[derive(Clone, Copy)]
pub struct Jobs {
    pub bound: u32,
}

impl Entries<32> for Jobs {
    type Entry = Job;

    ghost one = { λ kind _ _. read_job kind.bound };

    ghost all = { λ kind left _ _. read_jobs kind.bound left };

    ghost table = { λ kind. read_job_table kind.bound };

    ghost count_right = { job_count_right };

    const NONE: Job = Job {
        weight: 0,
        size: 0,
        deadline: 0,
    };

    ghost NONE = { zero_job };

    const COUNT_REFUSAL: Refusal = Refusal::Jobs;

    ghost COUNT_REFUSAL = { refusal.Jobs };

    fn count_right(count: u32) -> bool {
        job_count_right(count)
    }

    #[tactic(auto, unfolding(model::specs::Reading::read_job))]
    fn entry_at(&self, bytes: &[u8], at: usize, _place: u32, _before: Job) -> Read<Job> {
        let answer = field_at(bytes, at);
        let Ok((weight, next)) = answer else {
            return Err(answer.unwrap_err());
        };
        if !weight_right(weight) {
            return Err(Refusal::Jobs);
        }
        let answer = field_at(bytes, next);
        let Ok((size, next)) = answer else {
            return Err(answer.unwrap_err());
        };
        if !size_right(size) {
            return Err(Refusal::Jobs);
        }
        let answer = field_at(bytes, next);
        let Ok((deadline, next)) = answer else {
            return Err(answer.unwrap_err());
        };
        if !deadline_right(self.bound, deadline) {
            return Err(Refusal::Jobs);
        }
        let job = Job {
            weight,
            size,
            deadline,
        };
        Ok((job, next))
    }

    ghost count_fits = { jobs_fit };

    ghost means = { λ kind. jobs_mean kind.bound };
}
