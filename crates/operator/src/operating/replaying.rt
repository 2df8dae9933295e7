// Replay.
ghost use Rattle.std.specs.Prelude.{◌≡◌, MatchResult};
ghost use Rattle.replay.specs.Seeking.{rewound_cursor};
ghost use Rattle.deck.specs.NextCall.{next_does, rewind_answer};
ghost use Rattle.deck.specs.State.{deck_state};
ghost use Rattle.operator.specs.Advancing.{openings_left, Advances};

use crate::operating::Operator;
use deck::{Next, Refusal};
use tape::Reading;

impl<C: Reading> Operator<C> {
    // Goes back to number 1 at the start of the tape.
    pub fn rewind(&mut self) -> Result<(), Refusal>
        ensures answer { result ≡ rewind_answer (deck_state self.old.deck.session) }
        ensures deck { MatchResult result (λ _. self.new.deck ≡ record { cartridge = self.old.deck.cartridge; session = self.old.deck.session; cursor = rewound_cursor }) (λ _. self.new.deck ≡ self.old.deck) }
    {
        self.deck.rewind()
    }

    // Hands out the next item of the replay. A block fills the first 512 bytes of the buffer.
    pub fn next(&mut self, block: &mut [u8]) -> Result<Next, Refusal>
        ensures answer { result ≡ (next_does (C.Reading.cells self.old.deck.cartridge) self.old.deck.cursor (deck_state self.old.deck.session) block.old).answer }
        ensures buffer { block.new ≡ (next_does (C.Reading.cells self.old.deck.cartridge) self.old.deck.cursor (deck_state self.old.deck.session) block.old).buffer }
        ensures deck { self.new.deck ≡ record { cartridge = self.old.deck.cartridge; session = self.old.deck.session; cursor = (next_does (C.Reading.cells self.old.deck.cartridge) self.old.deck.cursor (deck_state self.old.deck.session) block.old).cursor } }
        ensures advances { Advances result (openings_left (C.Reading.cells self.old.deck.cartridge) self.old.deck.cursor) (openings_left (C.Reading.cells self.new.deck.cartridge) self.new.deck.cursor) }
    {
        self.deck.next(block)
    }
}
