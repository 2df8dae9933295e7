// The index of an interval store: where each track stood when it came to a mark.
ghost use Rattle.std.specs.Prelude.{◌≡◌, ℕ, ◌+◌, ◌-◌, ◌*◌, ◌/◌, ◌<◌, ◌≤◌, length, slice_index, slice_set};
ghost use Rattle.std.specs.Int.{div_ceil};
ghost use Rattle.tape.specs.Tape.{most_tracks, most_cells};
ghost use Rattle.interval.specs.Marks.{mark_stride, mark_of};
ghost use Rattle.interval.specs.declared.interval.index.TheConstants.{ALL_MARKS};
ghost use Rattle.interval.specs.declared.interval.track.TheConstants.{ZEROS_ALONE};

use crate::interval::track::Fill;
use tape::MOST_TRACKS;

// The marks of a track, and of all tracks, one after the other.
const MARKS: usize = 512;

const ALL_MARKS: usize = MOST_TRACKS * MARKS;

// The number of a mark among those of all tracks.
#[derive(Clone, Copy)]
pub struct Mark {
    pub number: usize,
    ghost within: { number < ALL_MARKS },
}

impl Mark {
    // The mark k of a track.
    fn new(at: u8, k: usize) -> Mark
        requires there { at < most_tracks }
        requires some { k < MARKS }
        ensures { result.number ≡ mark_of at k }
    {
        Mark {
            number: usize::from(at) * MARKS + k,
        }
    }
}

#[derive(Drop)]
pub struct Index {
    // How each track was filled at its marks: the bytes in use there, and the zeros after them.
    // A store is moved by value, so its notes are no wider than they need be: five bytes for a mark.
    used: [u32; ALL_MARKS],
    zeros: [u8; ALL_MARKS],
    ghost long: { (length used ≡ ALL_MARKS) × (length zeros ≡ ALL_MARKS) },
    ghost short: { (k : ℕ) → slice_index zeros k < ZEROS_ALONE },
}

impl Index {
    pub(crate) fn new() -> Index
        ensures used { (k : ℕ) → slice_index result.used k ≡ 0 }
        ensures zeros { (k : ℕ) → slice_index result.zeros k ≡ 0 }
    {
        Index {
            used: [0; ALL_MARKS],
            zeros: [0; ALL_MARKS],
        }
    }

    // Notes where a track stands.
    pub(crate) fn note(&mut self, mark: Mark, fill: Fill)
        requires { fill.used ≤ most_cells }
        ensures used { self.new.used ≡ slice_set self.old.used mark.number fill.used }
        ensures zeros { self.new.zeros ≡ slice_set self.old.zeros mark.number fill.zeros }
    {
        self.used[mark.number] = fill.used as u32;
        self.zeros[mark.number] = fill.zeros as u8;
    }

    // Where a track stood.
    pub(crate) fn noted(&self, mark: Mark) -> Fill
        ensures used { result.used ≡ slice_index self.now.used mark.number }
        ensures zeros { result.zeros ≡ slice_index self.now.zeros mark.number }
    {
        Fill {
            used: self.used[mark.number] as usize,
            zeros: usize::from(self.zeros[mark.number]),
        }
    }
}

// The cells from one mark of a track to the next.
fn stride(capacity: u32) -> usize
    ensures value { result ≡ mark_stride capacity }
    ensures some { 0 < result }
{
    capacity as usize / (MARKS - 1) + 1
}

// How many cells a track with so many lacks to its next mark.
pub(crate) fn to_next_mark(cells: usize, capacity: u32) -> usize
    ensures some { 0 < result }
    ensures next { cells + result ≡ cells / mark_stride capacity * mark_stride capacity + mark_stride capacity }
{
    let stride = stride(capacity);
    stride - cells % stride
}

// The mark at a place of a track, or the first one after it.
pub(crate) fn mark_ahead(at: u8, place: usize, capacity: u32) -> Mark
    requires there { at < most_tracks }
    requires inside { place ≤ capacity }
    ensures { result.number ≡ mark_of at (div_ceil place (mark_stride capacity)) }
{
    Mark::new(at, place.div_ceil(stride(capacity)))
}

// The mark at a place of a track, or the last one before it, and the cells to that mark.
pub(crate) fn mark_behind(at: u8, place: usize, capacity: u32) -> (Mark, usize)
    requires there { at < most_tracks }
    requires inside { place ≤ capacity }
    ensures mark { result.0.number ≡ mark_of at (place / mark_stride capacity) }
    ensures cells { result.1 ≡ place / mark_stride capacity * mark_stride capacity }
{
    let stride = stride(capacity);
    let k = place / stride;
    (Mark::new(at, k), k * stride)
}
