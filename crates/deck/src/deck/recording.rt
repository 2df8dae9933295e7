// Recording with a deck.
ghost use Rattle.std.specs.Prelude.{◌≡◌, true, false, IfErr, Ok, Err, MatchResult, OnOk, ◌≢◌};
ghost use Rattle.replay.specs.Seeking.{rewound_cursor};
ghost use Rattle.deck.specs.Calls.{begin_call, write_call, mark_call, stop_call};
ghost use Rattle.deck.specs.CallContract.{Had, CallHad};
ghost use Rattle.deck.specs.Ending.{is_open, TakenBack};
ghost use Rattle.deck.specs.Refusals.{refusal_number, stop_number, begun_answer, taken_answer, stopped_answer, stopped_cursor};
ghost use Rattle.deck.specs.State.{deck_state};
ghost use Rattle.deck.specs.Taking.{takes_content};
ghost use Rattle.replay.specs.Scan.{stands};

use crate::deck::Deck;
use crate::measures::{BLOCK, ITEM_ROOM};
use crate::obligation::{Obligation, StopRefusal};
use crate::refusal::Refusal;
use crate::session::Session;
use qic24::Content;
use replay::{ReplayCursor, next_number};
use tape::{Reading, Recording};

impl<C: Recording> Deck<C> {
    // Opens a recording after what is on the tape; answers the next number.
    pub fn begin(&mut self) -> Result<(u32, Obligation), Refusal>
        ensures had { CallHad C.Reading.room C.Reading.cells C.Reading.takes self.old.cartridge self.new.cartridge (deck_state self.old.session) (deck_state self.new.session) begin_call (begun_answer result) }
        ensures open { OnOk result (is_open (deck_state self.new.session) ≡ true) }
        ensures cursor { MatchResult result (λ _. self.new.cursor ≡ rewound_cursor) (λ _. self.new ≡ self.old) }
    {
        if self.is_recording() {
            return Err(Refusal::StillRecording);
        }
        if self.cartridge.capacity() < ITEM_ROOM {
            return Err(Refusal::CapacityTooSmall);
        }
        let next = next_number(&self.cartridge)?;
        self.session = Some(Session::begun(next));
        self.cursor = ReplayCursor::rewound();
        Ok((next, Obligation { open: () }))
    }

    // Records a block of 512 bytes; answers its number.
    pub fn write(&mut self, block: &[u8]) -> Result<u32, Refusal>
        ensures had { CallHad C.Reading.room C.Reading.cells C.Reading.takes self.old.cartridge self.new.cartridge (deck_state self.old.session) (deck_state self.new.session) (write_call block.now) (taken_answer result) }
        ensures open { is_open (deck_state self.new.session) ≡ is_open (deck_state self.old.session) }
        ensures cursor { self.new.cursor ≡ self.old.cursor }
        ensures kept { IfErr result (λ e. (refusal_number e ≢ 14) → self.new ≡ self.old) }
    {
        if !self.is_recording() {
            return Err(Refusal::NotRecording);
        }
        let bytes = <[u8; BLOCK]>::try_from(block).map_err(|_| Refusal::WrongSize)?;
        self.take(&Content::Block(bytes))
    }

    // Records a file mark; answers its number.
    pub fn mark(&mut self) -> Result<u32, Refusal>
        ensures had { CallHad C.Reading.room C.Reading.cells C.Reading.takes self.old.cartridge self.new.cartridge (deck_state self.old.session) (deck_state self.new.session) mark_call (taken_answer result) }
        ensures open { is_open (deck_state self.new.session) ≡ is_open (deck_state self.old.session) }
        ensures cursor { self.new.cursor ≡ self.old.cursor }
        ensures kept { IfErr result (λ e. (refusal_number e ≢ 14) → self.new ≡ self.old) }
    {
        self.take(&Content::Mark)
    }

    // Records an item that holds this; answers its number.
    fn take(&mut self, content: &Content) -> Result<u32, Refusal>
        ensures had { Had C.Reading.takes self.old.cartridge self.new.cartridge (deck_state self.new.session) (taken_answer result) (takes_content (C.Reading.room self.old.cartridge) (C.Reading.cells self.old.cartridge) (stands (C.Reading.cells self.new.cartridge)) (deck_state self.old.session) content.now) }
        ensures open { is_open (deck_state self.new.session) ≡ is_open (deck_state self.old.session) }
        ensures cursor { self.new.cursor ≡ self.old.cursor }
        ensures kept { IfErr result (λ e. (refusal_number e ≢ 14) → self.new ≡ self.old) }
    {
        let session = self.session.as_mut().ok_or(Refusal::NotRecording)?;
        session.take(&mut self.cartridge, content)
    }

    // Closes the recording and takes the obligation back; answers how many items it kept.
    pub fn stop(&mut self, obligation: Obligation) -> Result<u32, StopRefusal>
        ensures had { CallHad C.Reading.room C.Reading.cells C.Reading.takes self.old.cartridge self.new.cartridge (deck_state self.old.session) (deck_state self.new.session) stop_call (stopped_answer result) }
        ensures closed { is_open (deck_state self.new.session) ≡ false }
        ensures taken_back { is_open (deck_state self.old.session) ≡ true → TakenBack result }
        ensures cursor { self.new.cursor ≡ stopped_cursor self.old.cursor result }
        ensures kept { IfErr result (λ e. (stop_number e ≢ 14) → self.new ≡ self.old) }
    {
        let Some(session) = self.session.take() else {
            return Err(StopRefusal::NotRecording(obligation));
        };
        let Obligation { open: () } = obligation;
        self.cursor = ReplayCursor::rewound();
        Ok(session.close(&mut self.cartridge)?)
    }
}
