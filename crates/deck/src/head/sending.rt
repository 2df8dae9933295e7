// Sending a copy, or the ones that close a track, as one run of cells.
ghost use Rattle.std.specs.Prelude.{◌≡◌, ◌+◌, ◌≤◌, length};
ghost use Rattle.qic24.specs.Copy.{held, ones, copy, preamble_ones};
ghost use Rattle.tape.specs.Tape.{track, run};
ghost use Rattle.deck.specs.Heads.{Stays};
ghost use Rattle.deck.specs.Measures.{copy_head, copy_tail, closing_ones};

use super::Head;
use crate::measures::CLOSING_ONES;
use qic24::{Item, LONGEST, Preamble};
use tape::{Reading, Recording};

impl<C: Recording> Head<'_, C> {
    // Sends the copy of an item to the track, which has room for it.
    pub(crate) fn send_copy(&mut self, preamble: Preamble, item: &Item)
        requires { length (track (C.Reading.cells self.old.cartridge.now) self.old.on) + copy_head preamble + copy_tail ≤ C.Reading.room self.old.cartridge.now }
        ensures stays { Stays self.old self.new }
        ensures sent { C.Reading.takes self.old.cartridge.now (run self.old.on (copy (preamble_ones preamble) self.old.on (held item.now))) self.new.cartridge.now }
    {
        let mut cells = [0; LONGEST];
        let length = qic24::encode(preamble, self.on, item, &mut cells);
        // there is room, so it is not refused
        let _ = self.cartridge.append(self.on, &cells[..length]);
    }

    // Sends the ones that close a recording on the track.
    pub(crate) fn send_closing_ones(&mut self)
        requires { length (track (C.Reading.cells self.old.cartridge.now) self.old.on) + closing_ones ≤ C.Reading.room self.old.cartridge.now }
        ensures stays { Stays self.old self.new }
        ensures sent { C.Reading.takes self.old.cartridge.now (run self.old.on (ones closing_ones)) self.new.cartridge.now }
    {
        // there is room, so it is not refused
        let _ = self.cartridge.append(self.on, &[1; CLOSING_ONES]);
    }
}
