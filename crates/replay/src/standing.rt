// Whether the copy of an item stands sound at a place.
ghost use Rattle.std.specs.Prelude.{◌≡◌};
ghost use Rattle.qic24.specs.Copy.{held};
ghost use Rattle.replay.specs.Copies.{placed};
ghost use Rattle.replay.specs.Laws.{StandsExactly, SoundForGood};
ghost use Rattle.replay.specs.Scan.{stands};

use crate::place::TapePlace;
use crate::scanning::{opens_at, read_copy};
use qic24::Item;
use tape::Reading;

// Whether a sound copy of the item stands at the place.
pub fn copy_stands<C: Reading>(cartridge: &C, place: TapePlace, item: &Item) -> bool
    ensures answer { result ≡ stands (C.Reading.cells cartridge.now) (placed place (held item.now)) }
    ensures exactly { StandsExactly }
    ensures good { SoundForGood }
{
    opens_at(cartridge, place) && read_copy(cartridge, place).is_ok_and(|found| found == *item)
}
