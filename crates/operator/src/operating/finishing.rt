// The beginning and the end of an operator.
ghost use Rattle.std.specs.Prelude.{◌≡◌, None, is_some, IfNone, IfSome};
ghost use Rattle.replay.specs.Seeking.{rewound_cursor};
ghost use Rattle.deck.specs.Calls.{stop_call};
ghost use Rattle.deck.specs.CallContract.{CallHad};
ghost use Rattle.deck.specs.Deck.{deck_idle};
ghost use Rattle.deck.specs.Ending.{is_open};
ghost use Rattle.deck.specs.State.{deck_state};
ghost use Rattle.operator.specs.Stopping.{kept_answer};

use crate::closing::close;
use crate::operating::Operator;
use deck::{Deck, Refusal};
use tape::{Reading, Recording};

impl<C> Operator<C> {
    // An operator of a new deck, with no recording open.
    pub fn new(cartridge: C) -> Operator<C>
        ensures cartridge { result.deck.cartridge ≡ cartridge }
        ensures idle { result.deck.session ≡ None }
        ensures cursor { result.deck.cursor ≡ rewound_cursor }
    {
        Operator {
            deck: Deck::new(cartridge),
            held: None,
        }
    }

    // The cartridge, to be looked at.
    pub fn cartridge(&self) -> &C
        ensures { result.now ≡ self.now.deck.cartridge }
    {
        self.deck.cartridge()
    }
}

impl<C: Recording> Operator<C> {
    // Stops the recording that is open, if one is, and takes the cartridge back, with what the stop answered.
    pub fn finish(self) -> (C, Option<Result<u32, Refusal>>)
        ensures stopped { is_some result.1 ≡ is_open (deck_state self.deck.session) }
        ensures had { IfSome result.1 (λ kept. CallHad C.Reading.room C.Reading.cells C.Reading.takes self.deck.cartridge result.0 (deck_state self.deck.session) deck_idle stop_call (kept_answer kept)) }
        ensures same { IfNone result.1 (result.0 ≡ self.deck.cartridge) }
    {
        let Operator { mut deck, held } = self;
        let stopped = match held {
            Some(obligation) => Some(close(&mut deck, obligation)),
            None => None,
        };
        match deck.into_cartridge() {
            Ok(cartridge) => (cartridge, stopped),
            Err(_deck) => unreachable(),
        }
    }
}
