// Where bytes are put one after another: in lent bytes (Lent), or nowhere, where only their number is asked for (Length). So what puts a
// text or a sheet stands once, and says both how long it is and what is written.
#![tactic(auto)]

ghost use Rattle.std.specs.Prelude.{◌≡◌, ℕ, ◌+◌, ◌^◌, ◌<◌, ◌≤◌, List, length, MatchResult};
ghost use Rattle.sinks.specs.Takes.{length_takes, lent_takes};
ghost use Rattle.buffers.specs.Laid.{Laid};
ghost use Rattle.sinks.specs.Laws.{Takes, Written, TooShort};

use buffers::lay;
use refusals::Refusal;

// What takes bytes.
pub trait Sink {
    // There is room for so many bytes.
    ghost HasRoom: { Self → ℕ → Type 0 };

    // What it was, the bytes that were put, and what it is then.
    ghost Puts: { Self → List ℕ → Self → Type 0 };

    // Puts bytes.
    fn put(&mut self, bytes: &[u8])
        requires { HasRoom self.old (length bytes.now) }
        ensures { Puts self.old bytes.now self.new };

    ghost takes: { Takes HasRoom Puts };
}

// How many bytes were put.
#[derive(Clone, Copy)]
pub struct Length {
    pub bytes: usize,
}

impl Sink for Length {
    ghost HasRoom = { λ s n. s.bytes + n < 2 ^ 64 };

    ghost Puts = { λ s l t. t.bytes ≡ s.bytes + length l };

    ghost takes = { length_takes };

    fn put(&mut self, bytes: &[u8]) {
        self.bytes += bytes.len();
    }
}

// Lent bytes, and the place in them where the next bytes are put.
#[derive(Drop)]
pub struct Lent<'a> {
    pub buffer: &'a mut [u8],
    pub at: usize,
}

impl Sink for Lent<'_> {
    ghost HasRoom = { λ s n. s.at + n ≤ length s.buffer.now };

    ghost Puts = { λ s l t. Laid s.at l s.buffer.now t.buffer.now t.at × (t.buffer.ghost_name ≡ s.buffer.ghost_name) };

    ghost takes = { lent_takes };

    fn put(&mut self, bytes: &[u8]) {
        self.at = lay(self.buffer, self.at, bytes);
    }
}

// What is put as a whole.
pub trait Content: Copy {
    ghost bytes: { Self → List ℕ };

    // Puts its bytes.
    fn put<S: Sink>(self, sink: &mut S)
        requires { S.HasRoom sink.old (length (bytes self)) }
        ensures { S.Puts sink.old (bytes self) sink.new };
}

// Writes a content from the first place of lent bytes on; answers how long it is. The bytes are counted first, so that nothing is touched
// where they have no room.
pub fn write<C: Content>(content: C, buffer: &mut [u8]) -> Result<usize, Refusal>
    requires { length (C.bytes content) < 2 ^ 64 }
    ensures { MatchResult result (Written (C.bytes content) buffer.old buffer.new) (TooShort (C.bytes content) buffer.old buffer.new) }
{
    let mut length = Length { bytes: 0 };
    content.put(&mut length);
    if buffer.len() < length.bytes {
        return Err(Refusal::Room);
    }
    let mut lent = Lent { buffer, at: 0 };
    content.put(&mut lent);
    Ok(lent.at)
}
