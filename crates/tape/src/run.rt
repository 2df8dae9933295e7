// Cells that are sent to a track together, and where they go.
ghost use Rattle.std.specs.Prelude.{◌≡◌, ◌+◌, ◌≤◌, length};
ghost use Rattle.tape.specs.Flaws.{cell_number, meets};
ghost use Rattle.tape.specs.Tape.{most_cells};

use crate::flaw::{Flaw, cell_number};
use crate::stretch::Stretch;

#[derive(Clone, Copy)]
pub(crate) struct PlacedRun<'a> {
    pub(crate) on: u8,
    pub(crate) place: u32,
    pub(crate) sent: &'a [u8],
    ghost small: { place + length sent.now ≤ most_cells },
}

impl PlacedRun<'_> {
    // The number of the first cell, counted over all tracks.
    pub(crate) fn first(&self) -> u64
        ensures { result ≡ cell_number self.now.on self.now.place }
    {
        cell_number(self.on, self.place)
    }

    // Whether one of the cells is under a flaw.
    pub(crate) fn meets(&self, flaw: &Flaw) -> bool
        ensures { result ≡ meets self.now.on self.now.place (length self.now.sent.now) flaw.now }
    {
        let end = self.first() + self.sent.len() as u64;
        self.first().max(flaw.first()) < end.min(flaw.end())
    }
}
