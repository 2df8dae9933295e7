// Why a call on a cartridge, a store or a flaw sheet is declined.
ghost use Rattle.std.specs.Prelude.{◌≡◌};
ghost use Rattle.tape.specs.Refusals.{refusal_number};

use std::fmt;

#[derive(Clone, Copy, PartialEq, Eq, Debug)]
pub enum Refusal {
    // A flaw off the cartridge, past its capacity, or of length 0.
    FlawOutside = 4,
    // A flaw that begins before the end of the one entered last.
    FlawTooEarly = 5,
    NoTrack = 6,
    // Tracks or capacity outside the limits, or too little memory.
    BadStore = 7,
    // As many flaws are entered as a sheet holds.
    SheetFull = 19,
    // The cells would exceed the capacity.
    TrackFull = 20,
    // A read would pass the end of the track's cells.
    PastEnd = 21,
}

impl Refusal {
    pub fn number(self) -> u8
        ensures { result ≡ refusal_number self }
    {
        self as u8
    }
}

impl std::error::Error for Refusal {}

// Prints its number.
impl fmt::Display for Refusal {
    ghost use Rattle.std.specs.Prelude.{Some};
    ghost use Rattle.std.specs.Fmt.{decimal};
    ghost use Rattle.tape.specs.Refusals.{refusal_number};

    ghost output = { λ refusal. Some (decimal (refusal_number refusal)) };

    fn fmt<W: fmt::Write>(&self, f: &mut fmt::Formatter<W>) -> fmt::Result {
        write!(f, "{}", self.number())
    }
}
