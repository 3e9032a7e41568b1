// The sheet as it stands in memory. Every number is a `u32`, so that any value that bytes can carry can stand here; a call that is given a
// number out of range refuses it. What the sheet means is said in specs/; of code there is only what lends the
// places that count.
#![tactic(auto)]

ghost use Rattle.std.specs.Prelude.{◌≡◌, ◌≤◌, length};
ghost use Rattle.model.specs.View.{view_of};

// A speed and its energy per slot.
#[derive(Clone, Copy)]
pub struct Speed {
    pub speed: u32,
    pub energy: u32,
}

// An entry of the job table: how often it comes, how much work it brings and how soon that is due.
#[derive(Clone, Copy)]
pub struct Job {
    pub weight: u32,
    pub size: u32,
    pub deadline: u32,
}

// Places past the counts are ignored by every call, and zero when read.
#[derive(Clone, Copy)]
pub struct Sheet {
    pub bound: u32,
    pub speed_count: u32,
    pub speeds: [Speed; 9],
    pub horizon: u32,
    pub job_count: u32,
    pub jobs: [Job; 32],
}

// (One method for each table: they are two fields, with entries of two types.)
impl Sheet {
    // The speeds that count.
    pub fn speeds(&self) -> &[Speed]
        requires { self.now.speed_count ≤ 9 }
        ensures lent { result.now ≡ (view_of self.now).speeds }
        ensures counted { length result.now ≡ self.now.speed_count }
    {
        &self.speeds[..self.speed_count as usize]
    }

    // The jobs that count.
    pub fn jobs(&self) -> &[Job]
        requires { self.now.job_count ≤ 32 }
        ensures lent { result.now ≡ (view_of self.now).jobs }
        ensures counted { length result.now ≡ self.now.job_count }
    {
        &self.jobs[..self.job_count as usize]
    }
}
