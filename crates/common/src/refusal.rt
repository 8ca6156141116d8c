// Why a call is refused, in the order of checking.
ghost use Rattle.std.specs.Prelude.{◌≡◌};
ghost use Rattle.common.specs.Refused.{number_of};

#[derive(Clone, Copy, Debug, PartialEq, Eq)]
pub enum Refusal {
    // The image is not 64 bytes, or not valid.
    InvalidImage = 1,
    EmptyCommand = 2,
    InStandby = 3,
    UnlistedCommand = 4,
    // The command or the output is too short.
    TooShort = 5,
    AddressOut = 6,
    ProtocolOut = 7,
    DigitsOut = 8,
    // The registers would hold no valid calendar.
    InvalidCalendar = 9,
    // The supply was away longer than the clock is moved on at once.
    LongCut = 10,
    NoKey = 11,
    // The buffer has not the length asked for.
    BufferLength = 12,
}

// The number that a call with this answer returns, 0 where it is accepted.
pub fn number(answer: Result<(), Refusal>) -> u32
    ensures { result ≡ number_of answer }
{
    match answer {
        Ok(()) => 0,
        Err(refusal) => refusal as u32,
    }
}
