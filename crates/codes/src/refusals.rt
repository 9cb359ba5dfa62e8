// Why a call or a making is refused. specs/Refusals.antt has the number and the values of each.
ghost use Rattle.std.specs.Prelude.{◌≡◌};
ghost use Rattle.codes.specs.Refusals.{refusal_number, making_number};

/// What send, mend, read and show may answer in place of doing what they are asked.
#[derive(Debug, Clone, Copy, PartialEq, Eq)]
pub enum Refusal {
    /// The memory has fewer bytes than the call works in.
    ShortMemory,
    /// This place of the message is a mark.
    MarkInMessage(usize),
    /// No message is in reach of the received word.
    BeyondReach,
    /// The bytes are no message's word.
    NotAWord,
}

impl Refusal {
    // By a match: a case with a value takes no number of its own.
    /// The number by which it is known.
    pub fn number(&self) -> u8
        ensures { result ≡ refusal_number self.now }
    {
        match self {
            Refusal::ShortMemory => 1,
            Refusal::MarkInMessage(_) => 2,
            Refusal::BeyondReach => 3,
            Refusal::NotAWord => 4,
        }
    }
}

/// Why no code is made.
#[derive(Debug, Clone, Copy, PartialEq, Eq)]
pub enum MakingRefusal {
    /// The two codes have words of different lengths.
    LengthsDiffer = 5,
    /// The working length would pass what any code may have.
    WorkingTooLong = 6,
    /// The word or the message has no such place.
    NoSuchPlace = 7,
    /// The distance has nothing to lose: it is below 2.
    DistanceTooSmall = 8,
    /// The message has no symbol to lose: the dimension is below 2.
    DimensionTooSmall = 9,
    /// This place of the message has no carrier.
    NoCarrier = 10,
    /// The length is outside what the code allows.
    OutOfRange = 11,
}

impl MakingRefusal {
    /// The number by which it is known.
    pub fn number(&self) -> u8
        ensures { result ≡ making_number self.now }
    {
        *self as u8
    }
}
