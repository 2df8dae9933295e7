// What the flaws of a table cover.
ghost use Rattle.std.specs.Prelude.{◌≡◌, length};
ghost use Rattle.std.specs.List.{list_any};
ghost use Rattle.tape.specs.Flaws.{masked, meets};
ghost use Rattle.tape.specs.FlawTables.{table_flaws};

use crate::run::PlacedRun;
use crate::stretch::stretch_holding;
use crate::table::FlawTable;

impl FlawTable {
    // Whether one of the cells is under a flaw.
    pub(crate) fn touches(&self, run: &PlacedRun) -> bool
        ensures { result ≡ list_any (meets run.now.on run.now.place (length run.now.sent.now)) (table_flaws self.now) }
    {
        self.flaws().iter().any(|flaw| run.meets(flaw))
    }

    // Copies the cells, with a zero wherever one is under a flaw.
    pub(crate) fn mask_into(&self, run: &PlacedRun, out: &mut [u8])
        requires { length out.old ≡ length run.now.sent.now }
        ensures { out.new ≡ masked (table_flaws self.now) run.now.on run.now.place run.now.sent.now }
    {
        let from = run.first();
        // Written by index, since of what `iter_mut` lends a proof would know no element.
        for (i, cell) in run.sent.iter().enumerate() {
            let Some(_) = stretch_holding(self.flaws(), from + i as u64) else {
                out[i] = *cell;
                continue;
            };
            out[i] = 0;
        }
    }
}
