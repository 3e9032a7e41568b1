// The tables of a sheet, put as bytes: an entry is put as its numbers, in order.
ghost use Rattle.std.specs.Prelude.{ℕ, List, length};
ghost use Rattle.std.specs.List.{All, flat_map};
ghost use Rattle.model.specs.Bytes.{speed_code, job_code};
ghost use Rattle.writer.specs.Short.{SpeedShort, JobShort};

use crate::numbers::put_number;
use model::{Job, Speed};
use sinks::Sink;

// An entry of a table.
pub trait Entry: Copy {
    ghost code: { Self → List ℕ };

    // Every number of it has a code of three bytes at most.
    ghost IsShort: { Self → Type 0 };

    // Puts its numbers.
    fn put<S: Sink>(self, sink: &mut S)
        requires { IsShort self × S.HasRoom sink.old (length (code self)) }
        ensures { S.Puts sink.old (code self) sink.new };
}

impl Entry for Speed {
    ghost code = { speed_code };

    ghost IsShort = { SpeedShort };

    fn put<S: Sink>(self, sink: &mut S) {
        put_number(sink, self.speed);
        put_number(sink, self.energy);
    }
}

impl Entry for Job {
    ghost code = { job_code };

    ghost IsShort = { JobShort };

    fn put<S: Sink>(self, sink: &mut S) {
        put_number(sink, self.weight);
        put_number(sink, self.size);
        put_number(sink, self.deadline);
    }
}

// Puts the entries of a table.
pub fn put_entries<E: Entry, S: Sink>(sink: &mut S, entries: &[E])
    requires { All E.IsShort entries.now × S.HasRoom sink.old (length (flat_map E.code entries.now)) }
    ensures { S.Puts sink.old (flat_map E.code entries.now) sink.new }
{
    for entry in entries {
        entry.put(sink);
    }
}
