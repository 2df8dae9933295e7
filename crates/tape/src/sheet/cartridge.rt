// A flaw sheet as a cartridge.
ghost use Rattle.std.specs.Prelude.{◌≡◌, ◌+◌, ◌<◌, ◌≤◌, map, length, Ok};
ghost use Rattle.tape.specs.Tape.{track, cell, run};
ghost use Rattle.tape.specs.Flaws.{masked, Clean};
ghost use Rattle.tape.specs.Sheets.{sheet_flaws, Passes, sheet_takes};
ghost use Rattle.tape.specs.Sendings.{passes_longer, sends_keep};

use crate::calls::{check_append, track_length};
use crate::cartridge::{Reading, Recording};
use crate::refusal::Refusal;
use crate::run::PlacedRun;
use crate::sheet::FlawSheet;

impl<C: Reading> Reading for FlawSheet<C> {
    ghost cells = { λ s. C.Reading.cells s.inner };

    ghost room = { λ s. C.Reading.room s.inner };

    ghost takes = { sheet_takes C.Reading.cells C.Reading.takes };

    ghost few = { λ s. C.Reading.few s.inner };

    ghost small = { λ s. C.Reading.small s.inner };

    ghost empty = { λ s. C.Reading.empty s.inner };

    ghost inside = { λ s. C.Reading.inside s.inner };

    ghost binary = { λ s. C.Reading.binary s.inner };

    ghost grows = { λ s r e t. passes_longer C.Reading.cells C.Reading.takes C.Reading.grows (sheet_flaws s) s.inner r e.inner t.0 };

    ghost keeps = { λ s r e t. sends_keep C.Reading.takes C.Reading.room C.Reading.keeps t.0.runs s.inner e.inner t.0.sends };

    fn tracks(&self) -> u8 {
        self.inner.tracks()
    }

    fn length(&self, at: u8) -> Result<u32, Refusal> {
        self.inner.length(at)
    }

    fn read(&self, at: u8, place: u32, out: &mut [u8]) -> Result<(), Refusal> {
        self.inner.read(at, place, out)
    }
}

impl<C: Recording> Recording for FlawSheet<C> {
    fn capacity(&self) -> u32 {
        self.inner.capacity()
    }

    // The room is tested once, before anything is sent on.
    fn append(&mut self, at: u8, sent: &[u8]) -> Result<(), Refusal> {
        let place = self.inner.length(at)?;
        check_append(place, sent.len(), self.inner.capacity())?;
        let run = PlacedRun {
            on: at,
            place,
            sent,
        };
        if self.table.touches(&run) {
            self.send_masked(at, sent)
        } else {
            self.inner.append(at, sent)
        }
    }
}

// As many cells are sent on at a time.
const PART: usize = 512;

impl<C: Recording> FlawSheet<C> {
    // Sends cells to the end of a track that has room for them, with a zero wherever one is under a flaw.
    fn send_part(&mut self, at: u8, sent: &[u8]) -> Result<(), Refusal>
        requires part { length sent.now ≤ PART }
        requires there { at < length (C.Reading.cells self.old.inner) }
        requires fits { length (track (C.Reading.cells self.old.inner) at) + length sent.now ≤ C.Reading.room self.old.inner }
        ensures answer { result ≡ Ok tt }
        ensures inner { C.Reading.takes self.old.inner (run at (masked (sheet_flaws self.old) at (length (track (C.Reading.cells self.old.inner) at)) (map cell sent.now))) self.new.inner }
        ensures table { self.new.table ≡ self.old.table }
    {
        let run = PlacedRun {
            on: at,
            place: track_length(&self.inner, at),
            sent,
        };
        let mut buffer = [0; PART];
        let part = &mut buffer[..sent.len()];
        self.table.mask_into(&run, part);
        self.inner.append(at, part)
    }

    // Sends all of some cells on, part by part, to the end of a track that has room for them.
    fn send_masked(&mut self, at: u8, sent: &[u8]) -> Result<(), Refusal>
        requires there { at < length (C.Reading.cells self.old.inner) }
        requires fits { length (track (C.Reading.cells self.old.inner) at) + length sent.now ≤ C.Reading.room self.old.inner }
        requires touched { Clean (sheet_flaws self.old) at (length (track (C.Reading.cells self.old.inner) at)) (length sent.now) → ⊥ }
        ensures answer { result ≡ Ok tt }
        ensures inner { Passes C.Reading.cells C.Reading.takes (sheet_flaws self.old) self.old.inner (run at (map cell sent.now)) self.new.inner }
        ensures table { self.new.table ≡ self.old.table }
    {
        for part in sent.chunks(PART) {
            self.send_part(at, part)?;
        }
        Ok(())
    }
}
