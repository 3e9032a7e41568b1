// One value: a whole number or none, in the code and at a place of a lent buffer. The planner works with values through these functions
// alone, and what they promise is said over a width (model/specs/Width.antt), so that a planner of wider values differs from this one only
// in its `use` lines.
#![tactic(auto)]

ghost use Rattle.std.specs.Prelude.{◌≡◌, suc, ◌*◌, ◌≤◌, leb, length};
ghost use Rattle.std.proofs.Math.Option.{some};
ghost use Rattle.process.specs.Recursion.{plus, times};
ghost use Rattle.model.specs.Width.{value_in};
ghost use Rattle.buffers.specs.Fills.{Fills};
ghost use Rattle.value.specs.Narrow.{width};
ghost use Rattle.value.specs.Values.{Fits, less_than, missing, option_of};

use std::marker::Model;

// A value: its number, or 2^64-1 for none, as 01 writes it in lent memory. An Option<u64> would hold 2^64-1 as a number too, and that could
// not be stored. Contracts see what a value says, none or a number; none is greater than every number, so the derived order is theirs.
#[derive(Clone, Copy, PartialEq, Eq, PartialOrd, Ord)]
pub struct Value {
    number: u64,
}

impl Model for Value {
    ghost use Rattle.std.specs.Prelude.{ℕ};
    ghost use Rattle.std.proofs.Math.Option.{Option};
    ghost use Rattle.model.specs.Width.{decode};
    ghost use Rattle.value.specs.Narrow.{width};
    ghost use Rattle.std.proofs.Common.{ap};
    ghost use Rattle.value.specs.Encoding.{encode, encode_decode};

    ghost Value = { Option ℕ };

    ghost view = { λ v. decode width v.number };

    ghost inverse = { λ r. record { number = encode width r } };

    ghost inverse_ok = { λ v _. ap (λ (number : ℕ). record { number = number }) (encode_decode width v.number) };
}

impl Value {
    // None.
    pub const NONE: Value = Value { number: u64::MAX };

    // Whether a value is none.
    pub fn is_none(self) -> bool
        ensures { result ≡ missing self }
    {
        self.number == Self::NONE.number
    }

    // Its number, where it is not none.
    pub fn number(self) -> Option<u64>
        ensures { option_of result ≡ self }
    {
        if self.is_none() {
            return None;
        }
        Some(self.number)
    }

    // Whether this value is less than another. (`<` outside this crate compares numbers of which a contract cannot say that they are within
    // the limit.)
    pub fn less_than(self, than: Value) -> bool
        ensures { result ≡ less_than self than }
    {
        self < than
    }

    // This value plus so many times another; none where either is none. The sum must be within the limit, so that nothing wraps; the
    // product is made only where neither is none.
    pub fn plus_times(self, by: u32, value: Value) -> Value
        requires { Fits width (plus self (times by value)) }
        ensures { result ≡ plus self (times by value) }
    {
        if self.is_none() {
            return self;
        }
        if value.is_none() {
            return value;
        }
        Value {
            number: self.number + by as u64 * value.number,
        }
    }
}

impl From<u32> for Value {
    fn from(number: u32) -> Self
        ensures { result ≡ some number }
    {
        Value {
            number: number as u64,
        }
    }
}

// Whether so many values fit into a buffer of so many places.
pub fn fit(count: usize, room: usize) -> bool
    ensures { result ≡ leb (count * width.places) room }
{
    count <= room
}

// The value at a place.
pub fn load(buffer: &[u64], place: usize) -> Value
    requires { suc place * width.places ≤ length buffer.now }
    ensures { result ≡ value_in width buffer.now place }
{
    Value {
        number: buffer[place],
    }
}

// A value put at a place.
pub fn store(buffer: &mut [u64], place: usize, value: Value)
    requires { suc place * width.places ≤ length buffer.old }
    ensures { Fills width.places (value_in width) (λ i. value) place 1 buffer.old buffer.new }
{
    buffer[place] = value.number;
}
