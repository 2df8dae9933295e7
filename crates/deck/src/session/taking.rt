// The next item of a recording.
ghost use Rattle.std.specs.Prelude.{◌≡◌, ◌<◌, true, false, IfErr, ◌≢◌};
ghost use Rattle.qic24.specs.Copy.{held};
ghost use Rattle.replay.specs.Scan.{stands};
ghost use Rattle.deck.specs.CallContract.{Had};
ghost use Rattle.deck.specs.Calls.{item_of};
ghost use Rattle.deck.specs.Deck.{takes_item, end_track, media_ends};
ghost use Rattle.deck.specs.Heads.{EndsWith};
ghost use Rattle.deck.specs.Measures.{item_room, number_limit};
ghost use Rattle.deck.specs.Phases.{phase_of, unchecked_item};
ghost use Rattle.deck.specs.Refusals.{refusal_number, taken_answer};
ghost use Rattle.deck.specs.State.{numbers_of, session_state};
ghost use Rattle.deck.specs.Taking.{stays_on, moves_on, written_answer, written_state};

use super::Session;
use crate::failed::FailedItem;
use crate::head::Head;
use crate::measures::{FINISH_ROOM, ITEM_ROOM};
use crate::pending::Pending;
use crate::phase::Phase;
use crate::refusal::Refusal;
use qic24::{Content, Item};
use tape::{Reading, Recording};

impl Session {
    // With room on the track. Fails with the unchecked item where that can't be written.
    fn stay_on<C: Recording>(&self, head: &mut Head<'_, C>, new: &Item) -> Result<(), FailedItem>
        requires { EndsWith item_room (C.Reading.room head.old.cartridge.now) (C.Reading.cells head.old.cartridge.now) head.old.on }
        ensures same { head.new.cartridge.ghost_name ≡ head.old.cartridge.ghost_name }
        ensures had { Had C.Reading.takes head.old.cartridge.now head.new.cartridge.now (written_state (numbers_of self.now) (held new.now) result) (written_answer (numbers_of self.now) result) (stays_on (C.Reading.room head.old.cartridge.now) (C.Reading.cells head.old.cartridge.now) (stands (C.Reading.cells head.new.cartridge.now)) (numbers_of self.now) (unchecked_item self.now.next self.now.phase) (held new.now)) }
    {
        match self.unchecked() {
            Some(pending) => head.follow(&pending, new),
            None => {
                head.start(new);
                Ok(())
            }
        }
    }

    // With too little room: the unchecked item is finished, and the new one goes to the next track.
    fn move_on<C: Recording>(&self, head: &mut Head<'_, C>, new: &Item) -> Result<(), FailedItem>
        requires ends { head.old.on ≡ end_track (C.Reading.cells head.old.cartridge.now) }
        requires more { media_ends (C.Reading.room head.old.cartridge.now) (C.Reading.cells head.old.cartridge.now) ≡ false }
        ensures same { head.new.cartridge.ghost_name ≡ head.old.cartridge.ghost_name }
        ensures had { Had C.Reading.takes head.old.cartridge.now head.new.cartridge.now (written_state (numbers_of self.now) (held new.now) result) (written_answer (numbers_of self.now) result) (moves_on (C.Reading.room head.old.cartridge.now) (C.Reading.cells head.old.cartridge.now) (stands (C.Reading.cells head.new.cartridge.now)) (numbers_of self.now) (unchecked_item self.now.next self.now.phase) (held new.now)) }
    {
        match self.unchecked() {
            Some(pending) => {
                if head.room_left() < FINISH_ROOM {
                    return Err(FailedItem::from(&pending));
                }
                head.change_track(&pending, new)
            }
            None => {
                head.start_next(new);
                Ok(())
            }
        }
    }

    // Takes an item under the next number.
    pub(crate) fn take<C: Recording>(
        &mut self,
        cartridge: &mut C,
        content: &Content,
    ) -> Result<u32, Refusal>
        ensures had { Had C.Reading.takes cartridge.old cartridge.new (session_state self.new) (taken_answer result) (takes_item (C.Reading.room cartridge.old) (C.Reading.cells cartridge.old) (stands (C.Reading.cells cartridge.new)) (numbers_of self.old) (phase_of self.old.phase) (item_of self.old.next content.now)) }
        ensures kept { IfErr result (λ e. (refusal_number e ≢ 14) → (self.new ≡ self.old) × (cartridge.new ≡ cartridge.old)) }
    {
        if let Phase::Failed(failed) = self.phase {
            return Err(failed.into());
        }
        let new = self.next_item(content).ok_or(Refusal::NumbersUsedUp)?;
        let mut head = Head::at_end(cartridge);
        let written = if head.room_left() < ITEM_ROOM {
            if head.media_ends() {
                return Err(Refusal::MediaEnd);
            }
            self.move_on(&mut head, &new)
        } else {
            self.stay_on(&mut head, &new)
        };
        self.settle(content, written)
    }

    // The new item is unchecked now, or the one before it failed.
    fn settle(&mut self, content: &Content, written: Result<(), FailedItem>) -> Result<u32, Refusal>
        requires more { self.old.next < number_limit }
        ensures answer { taken_answer result ≡ written_answer (numbers_of self.old) written }
        ensures number { IfErr result (λ e. refusal_number e ≡ 14) }
        ensures state { session_state self.new ≡ written_state (numbers_of self.old) (item_of self.old.next content.now) written }
    {
        if let Err(failed) = written {
            self.phase = Phase::Failed(failed);
            return Err(failed.into());
        }
        let number = self.next;
        self.phase = Phase::Unchecked(Pending::from(content));
        self.next = number + 1;
        Ok(number)
    }
}
