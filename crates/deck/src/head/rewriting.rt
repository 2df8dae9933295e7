// Writing an item, and writing the pending one again until it came out good.
ghost use Rattle.std.specs.Prelude.{◌≡◌, ◌+◌, ◌*◌, ◌≤◌, [], ◌∷◌, length, nat_lt};
ghost use Rattle.qic24.specs.Copy.{held, copy, preamble_ones};
ghost use Rattle.qic24.specs.declared.layout.Preamble.TheVariants.{Normal};
ghost use Rattle.tape.specs.Tape.{track, run, Sends};
ghost use Rattle.deck.specs.Measures.{normal_copy, item_room, finish_room, most_writings};
ghost use Rattle.deck.specs.Deck.{copy_run, copy_runs, first_preamble, first_on, pair_puts, finish_puts, finish_runs};
ghost use Rattle.deck.specs.Heads.{Stays, EndsWith};
ghost use Rattle.deck.specs.LastCopies.{last_copy, failed_with, failed_alone, came_out};

use super::Head;
use crate::ending::first_preamble;
use crate::failed::FailedItem;
use crate::measures::{COPY_TAIL, MORE_WRITINGS, NORMAL_COPY};
use qic24::{Item, Preamble};
use tape::{Reading, Recording, track_length};

// From the end of a track back to the first data cell of its last copy but one.
const LAST_BUT_ONE: u32 = NORMAL_COPY + COPY_TAIL;

impl<C: Recording> Head<'_, C> {
    // The first copy of a recording on the track.
    pub(crate) fn start(&mut self, new: &Item)
        requires { item_room + length (track (C.Reading.cells self.old.cartridge.now) self.old.on) ≤ C.Reading.room self.old.cartridge.now }
        ensures stays { Stays self.old self.new }
        ensures sent { Sends C.Reading.takes self.old.cartridge.now (copy_run (first_preamble (C.Reading.cells self.old.cartridge.now) self.old.on) (first_on (C.Reading.room self.old.cartridge.now) (C.Reading.cells self.old.cartridge.now) self.old.on (held new.now)) ∷ []) self.new.cartridge.now }
    {
        let preamble = first_preamble(track_length(self.cartridge, self.on));
        self.send_copy(preamble, new);
    }

    // The pending item and the new one once more.
    fn send_pair(&mut self, pending: &Item, new: &Item)
        requires { length (track (C.Reading.cells self.old.cartridge.now) self.old.on) + 2 * normal_copy ≤ C.Reading.room self.old.cartridge.now }
        ensures stays { Stays self.old self.new }
        ensures sent { Sends C.Reading.takes self.old.cartridge.now (run self.old.on (copy (preamble_ones Normal) self.old.on (held pending.now)) ∷ run self.old.on (copy (preamble_ones Normal) self.old.on (held new.now)) ∷ []) self.new.cartridge.now }
    {
        self.send_copy(Preamble::Normal, pending);
        self.send_copy(Preamble::Normal, new);
    }

    // The new item after the pending one, and both again while the pending one fails. Fails with it after its sixteenth writing.
    pub(crate) fn follow(&mut self, pending: &Item, new: &Item) -> Result<(), FailedItem>
        requires { EndsWith item_room (C.Reading.room self.old.cartridge.now) (C.Reading.cells self.old.cartridge.now) self.old.on }
        ensures stays { Stays self.old self.new }
        ensures sent { Sends C.Reading.takes self.old.cartridge.now (copy_runs (pair_puts (C.Reading.room self.old.cartridge.now) (C.Reading.cells self.old.cartridge.now) (last_copy (C.Reading.cells self.old.cartridge.now) (held pending.now)) (held new.now) (failed_with (C.Reading.room self.old.cartridge.now) (C.Reading.cells self.old.cartridge.now) (C.Reading.cells self.new.cartridge.now) (held pending.now)))) self.new.cartridge.now }
        ensures answer { result ≡ came_out (held pending.now) (nat_lt (failed_with (C.Reading.room self.old.cartridge.now) (C.Reading.cells self.old.cartridge.now) (C.Reading.cells self.new.cartridge.now) (held pending.now)) most_writings) }
    {
        self.send_copy(Preamble::Normal, new);
        // a count of tries, with no item behind it
        for _writing in 0..MORE_WRITINGS {
            if self.stands_back(LAST_BUT_ONE, pending) {
                return Ok(());
            }
            self.send_pair(pending, new);
        }
        self.check(LAST_BUT_ONE, pending)
    }

    // The pending item again and again, until the copy before the last came out good. The sixteenth writing is itself the last.
    fn write_again(&mut self, pending: &Item) -> Result<(), FailedItem>
        requires { EndsWith finish_room (C.Reading.room self.old.cartridge.now) (C.Reading.cells self.old.cartridge.now) self.old.on }
        ensures stays { Stays self.old self.new }
        ensures sent { Sends C.Reading.takes self.old.cartridge.now (copy_runs (finish_puts (C.Reading.room self.old.cartridge.now) (C.Reading.cells self.old.cartridge.now) (last_copy (C.Reading.cells self.old.cartridge.now) (held pending.now)) (failed_alone (C.Reading.room self.old.cartridge.now) (C.Reading.cells self.old.cartridge.now) (C.Reading.cells self.new.cartridge.now) (held pending.now)))) self.new.cartridge.now }
        ensures answer { result ≡ came_out (held pending.now) (nat_lt (failed_alone (C.Reading.room self.old.cartridge.now) (C.Reading.cells self.old.cartridge.now) (C.Reading.cells self.new.cartridge.now) (held pending.now)) most_writings) }
    {
        // a count of tries, with no item behind it
        for _writing in 0..MORE_WRITINGS {
            self.send_copy(Preamble::Normal, pending);
            if self.stands_back(LAST_BUT_ONE, pending) {
                return Ok(());
            }
        }
        self.check(COPY_TAIL, pending)
    }

    // The pending item until it came out good, and then the ones that close the track.
    pub(crate) fn finish(&mut self, pending: &Item) -> Result<(), FailedItem>
        requires { EndsWith finish_room (C.Reading.room self.old.cartridge.now) (C.Reading.cells self.old.cartridge.now) self.old.on }
        ensures stays { Stays self.old self.new }
        ensures sent { Sends C.Reading.takes self.old.cartridge.now (finish_runs (C.Reading.room self.old.cartridge.now) (C.Reading.cells self.old.cartridge.now) (last_copy (C.Reading.cells self.old.cartridge.now) (held pending.now)) (failed_alone (C.Reading.room self.old.cartridge.now) (C.Reading.cells self.old.cartridge.now) (C.Reading.cells self.new.cartridge.now) (held pending.now))) self.new.cartridge.now }
        ensures answer { result ≡ came_out (held pending.now) (nat_lt (failed_alone (C.Reading.room self.old.cartridge.now) (C.Reading.cells self.old.cartridge.now) (C.Reading.cells self.new.cartridge.now) (held pending.now)) most_writings) }
    {
        self.write_again(pending)?;
        self.send_closing_ones();
        Ok(())
    }
}
