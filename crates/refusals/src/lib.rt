// The numbers that a call returns, as an enum: each refusal with the words of document 01 and its number there.
#![tactic(auto)]

ghost use Rattle.std.specs.Prelude.{◌≡◌};
ghost use Rattle.refusals.specs.Numbers.{number_of_refusal};

// Why a call refuses what it is given. A plan that leaves the empty queue with none has a number too, 12, though both buffers are filled.
#[derive(Clone, Copy, PartialEq, Eq)]
pub enum Refusal {
    // The bytes end inside a number or before a field.
    BytesEnd = 1,
    // A number is not in shortest form, or its third byte has the high bit.
    NotShortest = 2,
    // Bytes follow the last field.
    BytesFollow = 3,
    // D out of range.
    Bound = 4,
    // Count of speeds out of range, first not 0, not strictly rising, or one above 8.
    Speeds = 5,
    // An energy above 65,535.
    Energy = 6,
    // T out of range.
    Horizon = 7,
    // A job count, weight, size or deadline out of range.
    Jobs = 8,
    // T times G times W to the power T exceeds 2^63-1.
    Values = 9,
    // N above 65,535.
    Queues = 10,
    // A lent buffer shorter than needed.
    Room = 11,
    // Planned, but the empty queue at slot 0 has none.
    NoWay = 12,
    // The queue falls or is not bearable, an unused position is not zero, or the slot or the energy is too large.
    State = 13,
    // The state's slot is T.
    AtHorizon = 14,
    // No entry has this size and deadline.
    NoEntry = 15,
    // The plan byte is no sheet speed, or is below w(1).
    PlanByte = 16,
    // The next queue would not be bearable.
    NextQueue = 17,
    // The new energy total would pass 4,294,967,295.
    EnergyTotal = 18,
}

impl Refusal {
    // Document 01's number.
    pub fn number(self) -> u32
        ensures { result ≡ number_of_refusal self }
    {
        self as u32
    }
}
