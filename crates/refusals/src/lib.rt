// What a call answers: what was asked for, or its refusal, of which each has a number of document 01.
// Read specs/Refusals.antt (tests in order, of which the first that fails decides), then specs/Numbers.antt.
#![tactic(auto)]

ghost use Rattle.std.specs.Prelude.{◌≡◌};
ghost use Rattle.refusals.specs.Refusals.{zero_or};
ghost use Rattle.refusals.specs.Numbers.{number_of, answer_of};

// Why a call is refused, with the number that document 01 gives it.
#[derive(Clone, Copy, Debug, PartialEq, Eq)]
pub enum Refusal {
    // a capture to be listed is over 65536 bytes
    CaptureTooLong = 11,
    // no message has this type, or not this use
    UnknownType = 21,
    // a payload's length, or the number of its fields
    WrongLength = 22,
    // a field, or a text, outside its range
    OutOfRange = 23,
    // no such observation in the payload
    NoObservation = 25,
    // more than a frame can carry
    TooLong = 31,
    // no room where it is to be put
    NoRoom = 32,
    // a carrier phase that 40 bits do not hold
    PhaseOutOfRange = 33,
    // a roster that is empty, or longer than eight
    RosterLength = 41,
    // a sender twice
    RosterRepeats = 42,
    // a sender that is not listed
    NotListed = 43,
    // a packet of an epoch of none
    NoPackets = 44,
    // a packet past its epoch's last
    PastLast = 45,
    // no packet of observations
    NotObservations = 46,
    // a packet that came before
    Copied = 47,
    // a list shorter than the frames that it has to hold
    ListTooShort = 51,
    // a capture shorter than what was read of it before
    CaptureTooShort = 52,
}

impl Refusal {
    pub fn number(self) -> u8
        ensures { result ≡ number_of self }
    {
        self as u8
    }
}

// As C and Rust are told it: 0, or the refusal's number.
pub fn code<T: Drop>(answer: Result<T, Refusal>) -> u8
    ensures { result ≡ zero_or (answer_of answer) }
{
    match answer {
        Ok(_) => 0,
        Err(e) => e.number(),
    }
}
