// The sizes of a cartridge.
ghost use Rattle.std.specs.Prelude.{◌≡◌, ◌+◌, ◌*◌, ◌≤◌, length, if◌then◌else◌, Ok, Err, is_ok, IfOk, IfErr};
ghost use Rattle.tape.specs.declared.refusal.Refusal.TheVariants.{BadStore};
ghost use Rattle.tape.specs.Stores.{store_fits};
ghost use Rattle.tape.specs.Tape.{most_tracks, most_cells};

use crate::cartridge::Recording;
use crate::limits::sizes_allowed;
use crate::refusal::Refusal;
use std::ops::Range;

#[derive(Clone, Copy, PartialEq, Eq, Debug)]
pub struct Sizes {
    pub tracks: u8,
    // How many cells each track may have.
    pub capacity: u32,
    ghost few: { tracks ≤ most_tracks },
    ghost small: { capacity ≤ most_cells },
    ghost empty: { capacity ≤ tracks * most_cells },
}

impl Sizes {
    // Those of a cartridge without tracks.
    pub fn none() -> Sizes
        ensures tracks { result.tracks ≡ 0 }
        ensures capacity { result.capacity ≡ 0 }
    {
        Sizes {
            tracks: 0,
            capacity: 0,
        }
    }

    // Those of a store over so many bytes, of which each track takes `track_bytes`.
    pub fn over(tracks: u8, capacity: u32, track_bytes: u32, bytes: usize) -> Result<Sizes, Refusal>
        ensures fits { is_ok result ≡ store_fits tracks capacity track_bytes bytes }
        ensures sizes { IfOk result (λ sizes. (sizes.tracks ≡ tracks) × (sizes.capacity ≡ capacity)) }
        ensures refusal { IfErr result (λ refusal. refusal ≡ Refusal.BadStore) }
    {
        if sizes_allowed(tracks, capacity) && usize::from(tracks) * track_bytes as usize <= bytes {
            Ok(Sizes { tracks, capacity })
        } else {
            Err(Refusal::BadStore)
        }
    }

    // Those of a store that is handed out even when it is refused, and the answer: refused, it has no tracks.
    pub fn for_store(
        tracks: u8,
        capacity: u32,
        track_bytes: u32,
        bytes: usize,
    ) -> (Sizes, Result<(), Refusal>)
        ensures tracks { result.0.tracks ≡ (if store_fits tracks capacity track_bytes bytes then tracks else 0) }
        ensures capacity { result.0.capacity ≡ (if store_fits tracks capacity track_bytes bytes then capacity else 0) }
        ensures answer { result.1 ≡ (if store_fits tracks capacity track_bytes bytes then Ok tt else Err BadStore) }
    {
        match Sizes::over(tracks, capacity, track_bytes, bytes) {
            Ok(sizes) => (sizes, Ok(())),
            Err(refusal) => (Sizes::none(), Err(refusal)),
        }
    }

    // Those of a cartridge.
    pub(crate) fn of<C: Recording>(cartridge: &C) -> Sizes
        ensures tracks { result.tracks ≡ length (C.Reading.cells cartridge.now) }
        ensures capacity { result.capacity ≡ C.Reading.room cartridge.now }
    {
        Sizes {
            tracks: cartridge.tracks(),
            capacity: cartridge.capacity(),
        }
    }
}

// Which bytes of a store are those of a track, where each track takes `track_bytes`.
pub fn track_row(at: u8, track_bytes: u32) -> Range<usize>
    ensures start { result.start ≡ at * track_bytes }
    ensures end { result.end ≡ at * track_bytes + track_bytes }
{
    let count = track_bytes as usize;
    let start = usize::from(at) * count;
    start..start + count
}
