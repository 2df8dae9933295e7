// The lengths and limits of recording, each under one name.
use qic24::BODY;

// The bytes of a block.
pub(crate) const BLOCK: usize = 512;

// An item is written so many times at most after the first.
pub(crate) const MORE_WRITINGS: u32 = 15;

// As many ones close a recording on a track.
pub(crate) const CLOSING_ONES: usize = 3_495;

// From the first data cell of a copy to its end: the body and five ones.
pub(crate) const COPY_TAIL: u32 = BODY as u32 + 5;

// A copy with a normal preamble: 120 ones, the marker's 10 cells, and the rest.
pub(crate) const NORMAL_COPY: u32 = 130 + COPY_TAIL;

// The cells that must be left on a track for one more item.
pub(crate) const ITEM_ROOM: u32 = 280_000;

// The cells that finishing an item may need.
pub(crate) const FINISH_ROOM: u32 = MORE_WRITINGS * NORMAL_COPY + CLOSING_ONES as u32;
