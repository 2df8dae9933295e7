// Recording.
ghost use Rattle.std.specs.Prelude.{◌≡◌, true, false, cond, IfErr, OnOk, MatchResult, ◌≢◌};
ghost use Rattle.replay.specs.Seeking.{rewound_cursor};
ghost use Rattle.deck.specs.Calls.{begin_call, write_call, mark_call, stop_call};
ghost use Rattle.deck.specs.CallContract.{CallHad};
ghost use Rattle.deck.specs.Ending.{is_open};
ghost use Rattle.deck.specs.Refusals.{refusal_number, taken_answer};
ghost use Rattle.deck.specs.State.{deck_state};
ghost use Rattle.operator.specs.Stopping.{kept_answer};

use crate::closing::close;
use crate::operating::Operator;
use deck::Refusal;
use tape::{Reading, Recording};

impl<C: Recording> Operator<C> {
    // Opens a recording after what is on the tape; answers the next number.
    pub fn begin(&mut self) -> Result<u32, Refusal>
        ensures had { CallHad C.Reading.room C.Reading.cells C.Reading.takes self.old.deck.cartridge self.new.deck.cartridge (deck_state self.old.deck.session) (deck_state self.new.deck.session) begin_call (taken_answer result) }
        ensures open { OnOk result (is_open (deck_state self.new.deck.session) ≡ true) }
        ensures cursor { MatchResult result (λ _. self.new.deck.cursor ≡ rewound_cursor) (λ _. self.new.deck ≡ self.old.deck) }
    {
        let (number, obligation) = self.deck.begin()?;
        match self.held.replace(obligation) {
            None => Ok(number),
            // begin hands out none while one is in hand
            Some(_held) => unreachable(),
        }
    }

    // Records a block of 512 bytes; answers its number.
    pub fn write(&mut self, block: &[u8]) -> Result<u32, Refusal>
        ensures had { CallHad C.Reading.room C.Reading.cells C.Reading.takes self.old.deck.cartridge self.new.deck.cartridge (deck_state self.old.deck.session) (deck_state self.new.deck.session) (write_call block.now) (taken_answer result) }
        ensures open { is_open (deck_state self.new.deck.session) ≡ is_open (deck_state self.old.deck.session) }
        ensures cursor { self.new.deck.cursor ≡ self.old.deck.cursor }
        ensures kept { IfErr result (λ e. (refusal_number e ≢ 14) → self.new.deck ≡ self.old.deck) }
    {
        self.deck.write(block)
    }

    // Records a file mark; answers its number.
    pub fn mark(&mut self) -> Result<u32, Refusal>
        ensures had { CallHad C.Reading.room C.Reading.cells C.Reading.takes self.old.deck.cartridge self.new.deck.cartridge (deck_state self.old.deck.session) (deck_state self.new.deck.session) mark_call (taken_answer result) }
        ensures open { is_open (deck_state self.new.deck.session) ≡ is_open (deck_state self.old.deck.session) }
        ensures cursor { self.new.deck.cursor ≡ self.old.deck.cursor }
        ensures kept { IfErr result (λ e. (refusal_number e ≢ 14) → self.new.deck ≡ self.old.deck) }
    {
        self.deck.mark()
    }

    // Gives the obligation back, so that the recording is closed; answers how many items it kept.
    pub fn stop(&mut self) -> Result<u32, Refusal>
        ensures had { CallHad C.Reading.room C.Reading.cells C.Reading.takes self.old.deck.cartridge self.new.deck.cartridge (deck_state self.old.deck.session) (deck_state self.new.deck.session) stop_call (kept_answer result) }
        ensures closed { is_open (deck_state self.new.deck.session) ≡ false }
        ensures cursor { self.new.deck.cursor ≡ cond (is_open (deck_state self.old.deck.session)) rewound_cursor self.old.deck.cursor }
        ensures kept { IfErr result (λ e. (refusal_number e ≢ 14) → self.new.deck ≡ self.old.deck) }
    {
        match self.held.take() {
            Some(obligation) => close(&mut self.deck, obligation),
            None => Err(Refusal::NotRecording),
        }
    }
}
