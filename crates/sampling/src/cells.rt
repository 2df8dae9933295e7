// The cells of a track.
ghost use Rattle.std.specs.Prelude.{◌≡◌, IfOk, fold};
ghost use Rattle.tape.specs.Tape.{track};
ghost use Rattle.sampling.specs.Fnv.{empty_hash, next_hash};

use crate::hash::{EMPTY, hash_on};
use std::alloc::{AllocError, Global};
use tape::{Reading, track_length};

// The cells that are hashed at a time.
const PART: usize = 8_192;

// All cells of a track; none where there is no such track.
pub fn cells_of<C: Reading>(cartridge: &C, on: u8, heap: Global) -> Result<Vec<u8>, AllocError>
    ensures { IfOk result (λ cells. cells.items ≡ track (C.Reading.cells cartridge.now) on) }
{
    let mut cells = vec![in heap; 0u8; track_length(cartridge, on) as usize]?;
    let _ = cartridge.read(on, 0, cells.as_mut_slice());
    Ok(cells)
}

// The hash of all cells of a track, read a part at a time, so that no memory is asked for.
pub fn hash_of_track<C: Reading>(cartridge: &C, on: u8) -> u64
    ensures { result ≡ fold next_hash empty_hash (track (C.Reading.cells cartridge.now) on) }
{
    let length = track_length(cartridge, on);
    let mut cells = [0; PART];
    let mut hash = EMPTY;
    let mut place = 0;
    while place < length {
        let size = (length - place).min(PART as u32);
        let part = &mut cells[..size as usize];
        let _ = cartridge.read(on, place, part);
        hash = hash_on(hash, part);
        place += size;
    }
    hash
}
