// A deck over a flaw sheet.
ghost use Rattle.std.specs.Prelude.{◌≡◌, [], ◌∷◌, ◌++◌, length, MatchResult};
ghost use Rattle.tape.specs.Flaws.{entering};
ghost use Rattle.tape.specs.Sheets.{sheet_flaws};

use crate::deck::Deck;
use tape::{Flaw, FlawSheet, Reading, Recording, Refusal};

impl<C: Recording> Deck<FlawSheet<C>> {
    // Enters a flaw, also during a recording. The cells that stand, the capacity and the deck stay.
    pub fn enter_flaw(&mut self, flaw: Flaw) -> Result<(), Refusal>
        ensures answer { result ≡ entering (sheet_flaws self.old.cartridge) (length (C.Reading.cells self.old.cartridge.inner)) (C.Reading.room self.old.cartridge.inner) flaw }
        ensures sheet { MatchResult result (λ _. sheet_flaws self.new.cartridge ≡ sheet_flaws self.old.cartridge ++ flaw ∷ []) (λ _. self.new ≡ self.old) }
        ensures inner { self.new.cartridge.inner ≡ self.old.cartridge.inner }
        ensures session { self.new.session ≡ self.old.session }
        ensures cursor { self.new.cursor ≡ self.old.cursor }
    {
        self.cartridge.enter(flaw)
    }
}
