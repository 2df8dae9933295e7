// The sound copies of a tape, one after the other.
ghost use Rattle.std.specs.Prelude.{◌≡◌};
ghost use Rattle.std.specs.Option.{option_map};
ghost use Rattle.qic24.specs.Copy.{held};
ghost use Rattle.replay.specs.Answered.{first_copy, unsound_before};
ghost use Rattle.replay.specs.Copies.{placed};
ghost use Rattle.replay.specs.Scan.{openings_from};

use crate::place::TapePlace;
use crate::scanning::{opening_from, read_copy};
use crate::unlocated::UnsoundOpening;
use qic24::Item;
use tape::Reading;

// The first sound copy from a place on. Of the unsound openings before it the last one is noted.
pub(crate) fn copy_from<C: Reading>(
    cartridge: &C,
    from: TapePlace,
    unsound: &mut Option<UnsoundOpening>,
) -> Option<(TapePlace, Item)>
    ensures copy { option_map (λ x. placed x.0 (held x.1)) result ≡ first_copy (openings_from (C.Reading.cells cartridge.now) from) }
    ensures noted { unsound.new ≡ unsound_before unsound.old (openings_from (C.Reading.cells cartridge.now) from) }
{
    let mut from = from;
    while let Some(place) = opening_from(cartridge, from) {
        match read_copy(cartridge, place) {
            Ok(item) => return Some((place, item)),
            Err(opening) => {
                *unsound = Some(opening);
                let at = place.at + 1;
                from = TapePlace { at, ..place };
            }
        }
    }
    None
}
