// All the bytes of a sheet.
ghost use Rattle.model.specs.Bytes.{sheet_bytes};
ghost use Rattle.model.specs.View.{view_of};

use crate::entries::put_entries;
use crate::numbers::put_number;
use ranges::Ranged;
use sinks::{Content, Sink};

// A sheet whose fields are in range, to be put as bytes.
#[derive(Clone, Copy)]
pub struct Coded {
    pub sheet: Ranged,
}

impl Content for Coded {
    ghost bytes = { λ s. sheet_bytes (view_of s.sheet.sheet) };

    fn put<S: Sink>(self, sink: &mut S) {
        let sheet = self.sheet.sheet;
        put_number(sink, sheet.bound);
        put_number(sink, sheet.speed_count);
        put_entries(sink, sheet.speeds());
        put_number(sink, sheet.horizon);
        put_number(sink, sheet.job_count);
        put_entries(sink, sheet.jobs());
    }
}
