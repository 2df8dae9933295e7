// An operator of a deck over a flaw sheet.
ghost use Rattle.std.specs.Prelude.{◌≡◌, [], ◌∷◌, ◌++◌, length, MatchResult};
ghost use Rattle.tape.specs.Flaws.{entering};
ghost use Rattle.tape.specs.Sheets.{sheet_flaws};

use crate::operating::Operator;
use tape::{Flaw, FlawSheet, Reading, Recording, Refusal};

impl<C: Recording> Operator<FlawSheet<C>> {
    // Enters a flaw, also during a recording. The cells that stand, the capacity and the deck stay.
    pub fn enter_flaw(&mut self, flaw: Flaw) -> Result<(), Refusal>
        ensures answer { result ≡ entering (sheet_flaws self.old.deck.cartridge) (length (C.Reading.cells self.old.deck.cartridge.inner)) (C.Reading.room self.old.deck.cartridge.inner) flaw }
        ensures sheet { MatchResult result (λ _. sheet_flaws self.new.deck.cartridge ≡ sheet_flaws self.old.deck.cartridge ++ flaw ∷ []) (λ _. self.new.deck ≡ self.old.deck) }
        ensures inner { self.new.deck.cartridge.inner ≡ self.old.deck.cartridge.inner }
        ensures session { self.new.deck.session ≡ self.old.deck.session }
        ensures cursor { self.new.deck.cursor ≡ self.old.deck.cursor }
    {
        self.deck.enter_flaw(flaw)
    }
}
