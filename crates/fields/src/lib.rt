// One number of a sheet's bytes: groups of seven bits, the lowest first, the high bit set on every byte but the last; at most three bytes,
// the shortest form only.
#![tactic(auto)]

ghost use Rattle.std.specs.Prelude.{◌≡◌, ◌≤◌, ◌<◌};
ghost use Rattle.fields.specs.Answers.{answer, Short};
ghost use Rattle.model.specs.Reading.{number_in, field};

use refusals::Refusal;

// What a read answers: a value with its next place, or a refusal.
pub type Read<T> = Result<(T, usize), Refusal>;

// A number of at most `most` bytes at a place; it calls itself, as its definition does. Up to four are allowed here, since they still fit 32
// bits; it is `field_at` that allows a field only three.
#[tactic(auto, using(crate::proofs::Groups::no_byte, crate::proofs::Groups::one_byte))]
fn number_in(most: u32, bytes: &[u8], at: usize) -> Read<u32>
    requires { most ≤ 4 }
    ensures is { answer result ≡ number_in most bytes.now at }
    ensures short { Short most (answer result) }
{
    if most == 0 {
        return Err(Refusal::NotShortest);
    }
    let Some(&first) = bytes.get(at) else {
        return Err(Refusal::BytesEnd);
    };
    let byte = u32::from(first);
    if byte < 128 {
        return Ok((byte, at + 1));
    }
    let (high, next) = number_in(most - 1, bytes, at + 1)?;
    if high == 0 {
        return Err(Refusal::NotShortest);
    }
    Ok((byte - 128 + 128 * high, next))
}

// One field.
pub fn field_at(bytes: &[u8], at: usize) -> Read<u32>
    ensures { answer result ≡ field bytes.now at }
{
    number_in(3, bytes, at)
}
