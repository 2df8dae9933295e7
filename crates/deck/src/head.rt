// Where a recording goes on: a cartridge, and the track on which it is recorded.
ghost use Rattle.std.specs.Prelude.{◌<◌, ◌≤◌, length};

use tape::Reading;

mod changing;
mod checking;
mod ending;
mod rewriting;
mod sending;

// The track is there, unless the cartridge has no room at all.
#[derive(Drop)]
pub struct Head<'a, C: Reading> {
    cartridge: &'a mut C,
    on: u8,
    ghost there: { 1 ≤ C.Reading.room cartridge.now → on < length (C.Reading.cells cartridge.now) },
}
