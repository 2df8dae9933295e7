// A deck and its cartridge.
ghost use Rattle.std.specs.Prelude.{◌≡◌, None};
ghost use Rattle.replay.specs.Seeking.{rewound_cursor};
ghost use Rattle.deck.specs.Ending.{is_open, ended};
ghost use Rattle.deck.specs.Recorded.{NothingRunsShort, RunsFit, StopCounts};
ghost use Rattle.deck.specs.Sending.{PutsWhatItSends, PutsWhatItTakes};
ghost use Rattle.deck.specs.State.{deck_state};
ghost use Rattle.deck.specs.Unspoiled.{AllGoesWell, CanBeMade, OnlyWhatWasPut};

use crate::deck::Deck;
use replay::ReplayCursor;

impl<C> Deck<C> {
    // A new deck stands rewound, with no recording open. The laws say what holds of all calls that are made of it from here on.
    pub fn new(cartridge: C) -> Deck<C>
        ensures cartridge { result.cartridge ≡ cartridge }
        ensures idle { result.session ≡ None }
        ensures cursor { result.cursor ≡ rewound_cursor }
        ensures short { NothingRunsShort }
        ensures fit { RunsFit }
        ensures counts { StopCounts }
        ensures sends { PutsWhatItSends }
        ensures takes { PutsWhatItTakes }
        ensures unspoiled { AllGoesWell }
        ensures made { CanBeMade }
        ensures only { OnlyWhatWasPut }
    {
        Deck::idle(cartridge)
    }

    fn idle(cartridge: C) -> Deck<C>
        ensures { result ≡ record { cartridge = cartridge; session = None; cursor = rewound_cursor } }
    {
        Deck {
            cartridge,
            session: None,
            cursor: ReplayCursor::rewound(),
        }
    }

    // The cartridge, to be looked at.
    pub fn cartridge(&self) -> &C
        ensures { result.now ≡ self.now.cartridge }
    {
        &self.cartridge
    }

    pub fn is_recording(&self) -> bool
        ensures { result ≡ is_open (deck_state self.now.session) }
    {
        self.session.is_some()
    }

    // Takes the cartridge back; a deck with a recording open is handed back instead.
    pub fn into_cartridge(self) -> Result<C, Deck<C>>
        ensures { result ≡ ended self }
    {
        if self.is_recording() {
            return Err(self);
        }
        let Deck { cartridge, .. } = self;
        Ok(cartridge)
    }
}
