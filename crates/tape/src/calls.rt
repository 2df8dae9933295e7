// What the calls of every cartridge share.
ghost use Rattle.std.specs.Prelude.{◌≡◌, ◌+◌, length, nat_le};
ghost use Rattle.tape.specs.Calls.{reading, appending};
ghost use Rattle.tape.specs.Tape.{track};

use crate::cartridge::Reading;
use crate::refusal::Refusal;

// How many cells a track has; 0 where there is no such track.
pub fn track_length<C: Reading>(cartridge: &C, on: u8) -> u32
    ensures { result ≡ length (track (C.Reading.cells cartridge.now) on) }
{
    cartridge.length(on).unwrap_or(0)
}

// Whether `count` cells from a place on end at a limit or before.
pub(crate) fn ends_within(place: u32, count: usize, limit: u32) -> bool
    ensures { result ≡ nat_le (place + count) limit }
{
    place <= limit && count <= (limit - place) as usize
}

// The test of a read of `count` cells from a place on, of a track with `length` cells.
pub fn check_read(length: u32, place: u32, count: usize) -> Result<(), Refusal>
    ensures { result ≡ reading length place count }
{
    if ends_within(place, count, length) {
        Ok(())
    } else {
        Err(Refusal::PastEnd)
    }
}

// The test of an append of `count` cells to a track with `length` cells.
pub fn check_append(length: u32, count: usize, capacity: u32) -> Result<(), Refusal>
    ensures { result ≡ appending length count capacity }
{
    if ends_within(length, count, capacity) {
        Ok(())
    } else {
        Err(Refusal::TrackFull)
    }
}
