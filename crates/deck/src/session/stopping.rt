// The end of a recording.
ghost use Rattle.std.specs.Prelude.{◌≡◌};
ghost use Rattle.replay.specs.Scan.{stands};
ghost use Rattle.deck.specs.CallContract.{Had};
ghost use Rattle.deck.specs.Deck.{deck_idle, stop_does};
ghost use Rattle.deck.specs.Refusals.{closed_answer};
ghost use Rattle.deck.specs.State.{session_state};

use super::Session;
use crate::failed::FailedItem;
use crate::head::Head;
use crate::measures::FINISH_ROOM;
use crate::phase::Phase;
use tape::{Reading, Recording};

impl Session {
    // Finishes what is unchecked; answers how many items the recording kept, or fails with the item that can't be written.
    pub(crate) fn close<C: Recording>(&self, cartridge: &mut C) -> Result<u32, FailedItem>
        ensures { Had C.Reading.takes cartridge.old cartridge.new deck_idle (closed_answer result) (stop_does (C.Reading.room cartridge.old) (C.Reading.cells cartridge.old) (stands (C.Reading.cells cartridge.new)) (session_state self.now)) }
    {
        if let Phase::Failed(_) = self.phase {
            return Ok(self.taken().saturating_sub(1));
        }
        let Some(pending) = self.unchecked() else {
            return Ok(self.taken());
        };
        let mut head = Head::at_end(cartridge);
        if head.room_left() < FINISH_ROOM {
            return Err(FailedItem::from(&pending));
        }
        head.finish(&pending)?;
        Ok(self.taken())
    }
}
