// Entering flaws into a table.
ghost use Rattle.std.specs.Prelude.{◌≡◌, [], ◌∷◌, ◌++◌, MatchResult};
ghost use Rattle.tape.specs.Flaws.{flaw_fits, last_end, entering};
ghost use Rattle.tape.specs.FlawTables.{table_flaws};

use crate::calls::ends_within;
use crate::flaw::Flaw;
use crate::refusal::Refusal;
use crate::sizes::Sizes;
use crate::stretch::Stretch;
use crate::table::FlawTable;
use arrayvec::ArrayVec;

// Whether a flaw has cells, all of them on a cartridge of these sizes.
fn fits(flaw: Flaw, sizes: Sizes) -> bool
    ensures { result ≡ flaw_fits sizes.tracks sizes.capacity flaw }
{
    flaw.on < sizes.tracks
        && flaw.extent > 0
        && ends_within(flaw.place, flaw.extent as usize, sizes.capacity)
}

impl FlawTable {
    pub(crate) fn new() -> FlawTable
        ensures { table_flaws result ≡ [] }
    {
        FlawTable {
            flaws: ArrayVec::new(),
        }
    }

    pub(crate) fn flaws(&self) -> &[Flaw]
        ensures { result.now ≡ table_flaws self.now }
    {
        self.flaws.as_slice()
    }

    // Where the flaw entered last ends.
    fn end(&self) -> u64
        ensures { result ≡ last_end (table_flaws self.now) }
    {
        self.flaws.last().map_or(0, |flaw| flaw.end())
    }

    pub(crate) fn enter(&mut self, flaw: Flaw, sizes: Sizes) -> Result<(), Refusal>
        ensures answer { result ≡ entering (table_flaws self.old) sizes.tracks sizes.capacity flaw }
        ensures table { MatchResult result (λ _. table_flaws self.new ≡ table_flaws self.old ++ flaw ∷ []) (λ _. self.new ≡ self.old) }
    {
        if self.flaws.is_full() {
            return Err(Refusal::SheetFull);
        }
        if !fits(flaw, sizes) {
            return Err(Refusal::FlawOutside);
        }
        if flaw.first() < self.end() {
            return Err(Refusal::FlawTooEarly);
        }
        self.flaws.push(flaw);
        Ok(())
    }
}
