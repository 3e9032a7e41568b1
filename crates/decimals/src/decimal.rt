// A number in decimal, put into a sink.
ghost use Rattle.std.specs.Prelude.{◌++◌, length};
ghost use Rattle.model.specs.Listing.{decimal};

use itoa::Buffer;
use sinks::Sink;

// Puts a number. One of at most three digits, as a plan byte or a slot has, is put at once: a listing is made of these, and a buffer for each
// of them would cost more than all the rest.
pub fn put_decimal<S: Sink>(sink: &mut S, x: u64)
    requires { S.HasRoom sink.old (length (decimal x)) }
    ensures { S.Puts sink.old (decimal x) sink.new }
{
    if x < 10 {
        sink.put(&[(48 + x) as u8]);
        return;
    }
    if x < 100 {
        sink.put(&[(48 + x / 10) as u8, (48 + x % 10) as u8]);
        return;
    }
    if x < 1000 {
        sink.put(&[
            (48 + x / 10 / 10) as u8,
            (48 + x / 10 % 10) as u8,
            (48 + x % 10) as u8,
        ]);
        return;
    }
    let mut digits = Buffer::new();
    sink.put(digits.format(x).as_bytes());
}

// Puts a text, and a number behind it.
pub fn put_with_text<S: Sink>(sink: &mut S, text: &[u8], x: u64)
    requires { S.HasRoom sink.old (length (text.now ++ decimal x)) }
    ensures { S.Puts sink.old (text.now ++ decimal x) sink.new }
{
    sink.put(text);
    put_decimal(sink, x);
}
