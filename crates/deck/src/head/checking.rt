// Whether a copy near the end of the track came out good.
ghost use Rattle.std.specs.Prelude.{◌≡◌, ◌-◌, length};
ghost use Rattle.qic24.specs.Copy.{held};
ghost use Rattle.tape.specs.Tape.{track};
ghost use Rattle.replay.specs.Copies.{place_on, placed};
ghost use Rattle.replay.specs.Scan.{stands};
ghost use Rattle.deck.specs.LastCopies.{came_out};

use super::Head;
use crate::failed::FailedItem;
use qic24::Item;
use replay::{TapePlace, copy_stands};
use tape::{Reading, track_length};

impl<C: Reading> Head<'_, C> {
    // Whether a sound copy of the item stands so many cells before the end of the track.
    pub(crate) fn stands_back(&self, back: u32, item: &Item) -> bool
        ensures { result ≡ stands (C.Reading.cells self.now.cartridge.now) (placed (place_on self.now.on (length (track (C.Reading.cells self.now.cartridge.now) self.now.on) - back)) (held item.now)) }
    {
        let at = track_length(self.cartridge, self.on).saturating_sub(back);
        let place = TapePlace { on: self.on, at };
        copy_stands(self.cartridge, place, item)
    }

    // The item as one that failed, unless it stands there.
    pub(crate) fn check(&self, back: u32, item: &Item) -> Result<(), FailedItem>
        ensures { result ≡ came_out (held item.now) (stands (C.Reading.cells self.now.cartridge.now) (placed (place_on self.now.on (length (track (C.Reading.cells self.now.cartridge.now) self.now.on) - back)) (held item.now))) }
    {
        if self.stands_back(back, item) {
            Ok(())
        } else {
            Err(FailedItem::from(item))
        }
    }
}
