// A change of track.
ghost use Rattle.std.specs.Prelude.{◌≡◌, suc, ◌+◌, ◌<◌, ◌≤◌, [], ◌∷◌, ◌++◌, length, if◌then◌else◌, nat_lt};
ghost use Rattle.qic24.specs.Copy.{held};
ghost use Rattle.tape.specs.Tape.{track, Sends};
ghost use Rattle.deck.specs.Measures.{item_room, finish_room, most_writings};
ghost use Rattle.deck.specs.Deck.{copy_run, first_preamble, first_on, finish_runs};
ghost use Rattle.deck.specs.Heads.{EndsWith};
ghost use Rattle.deck.specs.LastCopies.{last_copy, failed_alone, came_out};

use super::Head;
use crate::failed::FailedItem;
use qic24::Item;
use tape::{Reading, Recording};

impl<C: Recording> Head<'_, C> {
    // The first copy of a recording on the next track.
    pub(crate) fn start_next(&mut self, new: &Item)
        requires next { suc self.old.on < length (C.Reading.cells self.old.cartridge.now) }
        requires fits { item_room + length (track (C.Reading.cells self.old.cartridge.now) (suc self.old.on)) ≤ C.Reading.room self.old.cartridge.now }
        ensures same { self.new.cartridge.ghost_name ≡ self.old.cartridge.ghost_name }
        ensures sent { Sends C.Reading.takes self.old.cartridge.now (copy_run (first_preamble (C.Reading.cells self.old.cartridge.now) (suc self.old.on)) (first_on (C.Reading.room self.old.cartridge.now) (C.Reading.cells self.old.cartridge.now) (suc self.old.on) (held new.now)) ∷ []) self.new.cartridge.now }
    {
        self.on += 1;
        self.start(new);
    }

    // Finishes the pending item, and records the new one on the next track.
    pub(crate) fn change_track(&mut self, pending: &Item, new: &Item) -> Result<(), FailedItem>
        requires next { suc self.old.on < length (C.Reading.cells self.old.cartridge.now) }
        requires left { EndsWith finish_room (C.Reading.room self.old.cartridge.now) (C.Reading.cells self.old.cartridge.now) self.old.on }
        requires roomy { item_room ≤ C.Reading.room self.old.cartridge.now }
        ensures same { self.new.cartridge.ghost_name ≡ self.old.cartridge.ghost_name }
        ensures sent { Sends C.Reading.takes self.old.cartridge.now (finish_runs (C.Reading.room self.old.cartridge.now) (C.Reading.cells self.old.cartridge.now) (last_copy (C.Reading.cells self.old.cartridge.now) (held pending.now)) (failed_alone (C.Reading.room self.old.cartridge.now) (C.Reading.cells self.old.cartridge.now) (C.Reading.cells self.new.cartridge.now) (held pending.now)) ++ (if nat_lt (failed_alone (C.Reading.room self.old.cartridge.now) (C.Reading.cells self.old.cartridge.now) (C.Reading.cells self.new.cartridge.now) (held pending.now)) most_writings then copy_run (first_preamble (C.Reading.cells self.old.cartridge.now) (suc self.old.on)) (first_on (C.Reading.room self.old.cartridge.now) (C.Reading.cells self.old.cartridge.now) (suc self.old.on) (held new.now)) ∷ [] else [])) self.new.cartridge.now }
        ensures answer { result ≡ came_out (held pending.now) (nat_lt (failed_alone (C.Reading.room self.old.cartridge.now) (C.Reading.cells self.old.cartridge.now) (C.Reading.cells self.new.cartridge.now) (held pending.now)) most_writings) }
    {
        self.finish(pending)?;
        self.start_next(new);
        Ok(())
    }
}
