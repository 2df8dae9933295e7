// The track, and how many ones have passed since the last that was dropped.
ghost use Rattle.std.specs.Prelude.{ℕ, ◌<◌, ◌≤◌, slice_index};
ghost use Rattle.oddtape.specs.declared.odd.TheConstants.{CAPACITY};
ghost use Rattle.arrayvec.specs.ArrayVec.{array_vec_len};

use arrayvec::ArrayVec;
use ones::Ones;

mod medium;
mod ones;

const CAPACITY: usize = 512;

#[derive(Drop)]
pub struct OddTape {
    cells: ArrayVec<u8, CAPACITY>,
    ones: Ones,
    ghost inside: { array_vec_len cells ≤ CAPACITY },
    ghost binary: { (i : ℕ) → i < array_vec_len cells → slice_index cells.items i < 2 },
}
