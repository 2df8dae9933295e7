// Making a flaw sheet and entering flaws.
ghost use Rattle.std.specs.Prelude.{◌≡◌, [], ◌∷◌, ◌++◌, length, MatchResult};
ghost use Rattle.tape.specs.Flaws.{entering};
ghost use Rattle.tape.specs.Promises.{ClearSheet, ZerosUnderFlaws};
ghost use Rattle.tape.specs.Sheets.{sheet_flaws};

use crate::cartridge::{Reading, Recording};
use crate::flaw::Flaw;
use crate::refusal::Refusal;
use crate::sheet::FlawSheet;
use crate::sizes::Sizes;
use crate::table::FlawTable;

impl<C: Reading> FlawSheet<C> {
    // A sheet with no flaws.
    pub fn new(inner: C) -> FlawSheet<C>
        ensures inner { result.inner ≡ inner }
        ensures flaws { sheet_flaws result ≡ [] }
        ensures clear { ClearSheet C.Reading.cells C.Reading.takes }
    {
        FlawSheet {
            inner,
            table: FlawTable::new(),
        }
    }
}

impl<C> FlawSheet<C> {
    // The cartridge under the sheet.
    pub fn inner(&self) -> &C
        ensures { result.now ≡ self.now.inner }
    {
        &self.inner
    }

    // Takes the cartridge back.
    pub fn into_inner(self) -> C
        ensures { result ≡ self.inner }
    {
        let FlawSheet { inner, .. } = self;
        inner
    }

    // The flaws, in the order in which they were entered.
    pub fn flaws(&self) -> &[Flaw]
        ensures { result.now ≡ sheet_flaws self.now }
    {
        self.table.flaws()
    }
}

impl<C: Recording> FlawSheet<C> {
    // Enters a flaw after the others.
    pub fn enter(&mut self, flaw: Flaw) -> Result<(), Refusal>
        ensures answer { result ≡ entering (sheet_flaws self.old) (length (C.Reading.cells self.old.inner)) (C.Reading.room self.old.inner) flaw }
        ensures sheet { MatchResult result (λ _. (sheet_flaws self.new ≡ sheet_flaws self.old ++ flaw ∷ []) × (self.new.inner ≡ self.old.inner)) (λ _. self.new ≡ self.old) }
        ensures zeros { ZerosUnderFlaws C.Reading.cells C.Reading.takes }
    {
        let sizes = Sizes::of(self.inner());
        self.table.enter(flaw, sizes)
    }
}
