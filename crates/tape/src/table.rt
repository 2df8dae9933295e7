// The fixed table of a sheet's flaws.
ghost use Rattle.std.specs.Prelude.{◌≤◌, length};
ghost use Rattle.tape.specs.Flaws.{most_flaws, Apart, Whole};

use crate::flaw::Flaw;
use arrayvec::ArrayVec;

mod entries;
mod masking;

// A sheet holds at most so many flaws.
pub const MOST_FLAWS: usize = 64;

#[derive(Drop)]
pub struct FlawTable {
    flaws: ArrayVec<Flaw, MOST_FLAWS>,
    ghost few: { length flaws.items ≤ most_flaws },
    ghost whole: { Whole flaws.items },
    ghost apart: { Apart flaws.items },
}
