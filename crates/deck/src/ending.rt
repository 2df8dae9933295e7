// Where a recording goes on: the last track with cells, and how many it has.
ghost use Rattle.std.specs.Prelude.{◌≡◌, if◌then◌else◌, nat_eq};
ghost use Rattle.qic24.specs.declared.layout.Preamble.TheVariants.{Elongated, Long};
ghost use Rattle.deck.specs.Deck.{end_track};

use qic24::Preamble;
use tape::{Reading, track_length};

// The last track that has cells, or the first.
pub(crate) fn end_track<C: Reading>(cartridge: &C) -> u8
    ensures { result ≡ end_track (C.Reading.cells cartridge.now) }
{
    (1..cartridge.tracks())
        .rev()
        .find(|&on| track_length(cartridge, on) > 0)
        .unwrap_or(0)
}

// The preamble of the first copy of a recording on a track with so many cells.
pub(crate) fn first_preamble(length: u32) -> Preamble
    ensures { result ≡ (if nat_eq length 0 then Long else Elongated) }
{
    if length == 0 {
        Preamble::Long
    } else {
        Preamble::Elongated
    }
}
