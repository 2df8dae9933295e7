// Finding the openings of a tape, and reading what stands after one.
ghost use Rattle.std.specs.Prelude.{◌≡◌, length, take, drop};
ghost use Rattle.qic24.specs.Copy.{held};
ghost use Rattle.qic24.specs.Decode.{mapped_ok};
ghost use Rattle.qic24.specs.Opening.{FirstOpening};
ghost use Rattle.tape.specs.Tape.{track};
ghost use Rattle.replay.specs.Answered.{first_place, opened};
ghost use Rattle.replay.specs.Scan.{opens_here, read_here, openings_from};

use crate::place::TapePlace;
use crate::unlocated::UnsoundOpening;
use qic24::{Item, OPENING};
use tape::{Reading, track_length};

// The cells that are searched at a time. After a sound copy the next opening is about 135 cells on.
const WINDOW: usize = 512;

// How many cells further the next window begins: an opening that the end of one cuts is whole in the next.
const STEP: u32 = (WINDOW + 1 - OPENING) as u32;

// The cells from a place on, as many as the buffer takes.
fn read_part<'a, C: Reading>(cartridge: &C, place: TapePlace, out: &'a mut [u8]) -> &'a [u8]
    ensures { result.now ≡ take (length out.old) (drop place.at (track (C.Reading.cells cartridge.now) place.on)) }
{
    let left = track_length(cartridge, place.on).saturating_sub(place.at);
    let count = out.len().min(left as usize);
    let part = &mut out[..count];
    match cartridge.read(place.on, place.at, part) {
        Ok(()) => part,
        // refused only where no cell is left from there on
        Err(_) => &[],
    }
}

// Whether an opening ends right before a place.
pub(crate) fn opens_at<C: Reading>(cartridge: &C, place: TapePlace) -> bool
    ensures { result ≡ opens_here (track (C.Reading.cells cartridge.now) place.on) place.at }
{
    let Some(start) = place.at.checked_sub(OPENING as u32) else {
        return false;
    };
    let mut cells = [0; OPENING];
    let before = read_part(cartridge, TapePlace { at: start, ..place }, &mut cells);
    qic24::find_opening(before, 0).is_some()
}

// What stands after the opening at a place.
pub(crate) fn read_copy<C: Reading>(cartridge: &C, place: TapePlace) -> Result<Item, UnsoundOpening>
    ensures { mapped_ok held result ≡ opened place (read_here place.on (track (C.Reading.cells cartridge.now) place.on) place.at) }
{
    let mut body = [0; qic24::BODY];
    qic24::decode(place.on, read_part(cartridge, place, &mut body)).map_err(|cause| UnsoundOpening {
        place,
        cause,
    })
}

// The first opening of a track, from a place on.
fn opening_on_track<C: Reading>(cartridge: &C, from: TapePlace) -> Option<u32>
    ensures { FirstOpening (track (C.Reading.cells cartridge.now) from.on) from.at result }
{
    let length = track_length(cartridge, from.on);
    let mut at = from.at.saturating_sub(OPENING as u32);
    let mut window = [0; WINDOW];
    // with step_by a track without an opening is searched a quarter slower
    while at < length {
        let part = read_part(cartridge, TapePlace { at, ..from }, &mut window);
        if let Some(found) = qic24::find_opening(part, 0) {
            return Some(at + found as u32);
        }
        at += STEP;
    }
    None
}

// The first opening in tape order, from a place on.
pub(crate) fn opening_from<C: Reading>(cartridge: &C, from: TapePlace) -> Option<TapePlace>
    ensures { result ≡ first_place (openings_from (C.Reading.cells cartridge.now) from) }
{
    let mut at = from.at;
    for on in from.on..cartridge.tracks() {
        if let Some(at) = opening_on_track(cartridge, TapePlace { on, at }) {
            return Some(TapePlace { on, at });
        }
        at = 0;
    }
    None
}
