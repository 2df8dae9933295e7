// The interval store: the zeros before each one, a byte for each one.
ghost use Rattle.std.specs.Prelude.{◌≡◌, ℕ, ◌*◌, ◌≤◌, length, drop, vec_len};
ghost use Rattle.tape.specs.Tape.{most_tracks};
ghost use Rattle.interval.specs.Intervals.{Stands, state_of};
ghost use Rattle.interval.specs.Marks.{Noted, OfTrack};

use tape::{MOST_TRACKS, Sizes};

mod adding;
mod copying;
mod index;
mod store;
mod track;

use index::Index;
use track::TrackState;

// A track's bytes stand one after the other from the track's number times the capacity on: it has at most as many bytes as cells.
#[derive(Drop)]
pub struct IntervalStore {
    memory: Vec<u8>,
    sizes: Sizes,
    // All of them stand, so that the sizes alone tell how many tracks there are.
    states: [TrackState; MOST_TRACKS],
    index: Index,
    ghost enough: { sizes.tracks * sizes.capacity ≤ vec_len memory },
    ghost nine: { length states ≡ most_tracks },
    ghost rule: { (t : ℕ) → Stands (drop (t * sizes.capacity) memory.items) sizes.capacity (state_of states t) },
    ghost noted: { (t : ℕ) → Noted (drop (t * sizes.capacity) memory.items) sizes.capacity (state_of states t).cells index.used index.zeros t },
    ghost held: { (t : ℕ) → OfTrack (state_of states t).fill.used index.used t },
}
