// A stretch of bad cells on a track.
ghost use Rattle.std.specs.Prelude.{◌≡◌};
ghost use Rattle.tape.specs.Flaws.{cell_number, flaw_first, flaw_end};

use crate::limits::MOST_CELLS;
use crate::stretch::Stretch;

#[derive(Clone, Copy, PartialEq, Eq, Debug, Default)]
pub struct Flaw {
    // The track.
    pub on: u8,
    pub place: u32,
    pub extent: u32,
}

impl Flaw {
    // The number of the first cell after it.
    pub fn end(&self) -> u64
        ensures { result ≡ flaw_end self.now }
    {
        self.first() + self.extent()
    }
}

impl Stretch for Flaw {
    ghost first = { flaw_first };

    ghost extent = { λ f. f.extent };

    fn first(&self) -> u64 {
        cell_number(self.on, self.place)
    }

    fn extent(&self) -> u64 {
        u64::from(self.extent)
    }
}

// The number of a cell, counted over all tracks.
pub(crate) fn cell_number(at: u8, place: u32) -> u64
    ensures { result ≡ cell_number at place }
{
    u64::from(at) * u64::from(MOST_CELLS) + u64::from(place)
}
