// A number of a sheet, put as bytes.
ghost use Rattle.std.specs.Prelude.{◌^◌, ◌<◌, length};
ghost use Rattle.model.specs.Bytes.{code};

use sinks::Sink;

// Puts a number: its groups of seven bits, the lowest first, with the high bit on every byte but the last.
pub fn put_number<S: Sink>(sink: &mut S, x: u32)
    requires { (x < 128 ^ 3) × S.HasRoom sink.old (length (code x)) }
    ensures { S.Puts sink.old (code x) sink.new }
{
    let mut rest = x;
    while rest >= 128 {
        sink.put(&[(128 + rest % 128) as u8]);
        rest /= 128;
    }
    sink.put(&[rest as u8]);
}
