// The packed store: eight cells a byte, the high bit first.
ghost use Rattle.std.specs.Prelude.{◌≡◌, ℕ, ◌*◌, ◌≤◌, length, vec_len, slice_index};
ghost use Rattle.packed.specs.Packed.{packed_bytes};
ghost use Rattle.tape.specs.Tape.{most_tracks};

use tape::{MOST_TRACKS, Sizes};

mod bytes;
mod store;

// A track's bytes stand one after the other from the track's number times their count on.
#[derive(Drop)]
pub struct PackedStore {
    memory: Vec<u8>,
    sizes: Sizes,
    // How many cells of each track are in use. All nine stand, so that the sizes alone tell how many tracks there are.
    used: [u32; MOST_TRACKS],
    ghost enough: { sizes.tracks * packed_bytes sizes.capacity ≤ vec_len memory },
    ghost nine: { length used ≡ most_tracks },
    ghost inside: { (t : ℕ) → slice_index used t ≤ sizes.capacity },
}
