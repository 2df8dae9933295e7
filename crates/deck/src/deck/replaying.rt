// Replay from a deck.
ghost use Rattle.std.specs.Prelude.{◌≡◌, ◌≤◌, length, MatchResult};
ghost use Rattle.replay.specs.Seeking.{rewound_cursor};
ghost use Rattle.deck.specs.NextCall.{handed, filled, next_does, rewind_answer};
ghost use Rattle.deck.specs.State.{deck_state};

use crate::deck::Deck;
use crate::measures::BLOCK;
use crate::next::Next;
use crate::refusal::Refusal;
use qic24::{Content, Item};
use replay::{Found, ReplayCursor, next_item};
use tape::Reading;

impl<C: Reading> Deck<C> {
    // Goes back to number 1 at the start of the tape.
    pub fn rewind(&mut self) -> Result<(), Refusal>
        ensures answer { result ≡ rewind_answer (deck_state self.old.session) }
        ensures deck { MatchResult result (λ _. self.new ≡ record { cartridge = self.old.cartridge; session = self.old.session; cursor = rewound_cursor }) (λ _. self.new ≡ self.old) }
    {
        if self.is_recording() {
            return Err(Refusal::StillRecording);
        }
        self.cursor = ReplayCursor::rewound();
        Ok(())
    }

    // Hands out the next item of the replay. A block fills the first 512 bytes of the buffer.
    pub fn next(&mut self, block: &mut [u8]) -> Result<Next, Refusal>
        ensures answer { result ≡ (next_does (C.Reading.cells self.old.cartridge) self.old.cursor (deck_state self.old.session) block.old).answer }
        ensures buffer { block.new ≡ (next_does (C.Reading.cells self.old.cartridge) self.old.cursor (deck_state self.old.session) block.old).buffer }
        ensures deck { self.new ≡ record { cartridge = self.old.cartridge; session = self.old.session; cursor = (next_does (C.Reading.cells self.old.cartridge) self.old.cursor (deck_state self.old.session) block.old).cursor } }
    {
        if self.is_recording() {
            return Err(Refusal::StillRecording);
        }
        if block.len() < BLOCK {
            return Err(Refusal::WrongSize);
        }
        match next_item(&self.cartridge, &self.cursor)? {
            Found::Item { item, after, .. } => {
                self.cursor = after;
                Ok(hand_out(&item, block))
            }
            Found::End { passed } => Ok(Next::End { passed }),
        }
    }
}

// Puts a block's bytes into the buffer, and says what the item is.
fn hand_out(item: &Item, block: &mut [u8]) -> Next
    requires { 512 ≤ length block.old }
    ensures answer { result ≡ handed item.now.number item.now.content }
    ensures buffer { block.new ≡ filled item.now.content block.old }
{
    let number = item.number();
    match item.content() {
        Content::Block(bytes) => {
            block[0..BLOCK].copy_from_slice(bytes);
            Next::Block { number }
        }
        Content::Mark => Next::Mark { number },
    }
}
