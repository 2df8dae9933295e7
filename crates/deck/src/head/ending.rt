// Where a recording goes on, and what is left there.
ghost use Rattle.std.specs.Prelude.{◌≡◌, ◌-◌, length};
ghost use Rattle.tape.specs.Tape.{track};
ghost use Rattle.deck.specs.Deck.{end_track, media_ends};

use super::Head;
use crate::ending::end_track;
use crate::measures::ITEM_ROOM;
use tape::{Reading, Recording, track_length};

impl<'a, C: Recording> Head<'a, C> {
    // On the last track that has cells, or the first.
    pub(crate) fn at_end(cartridge: &'a mut C) -> Head<'a, C>
        ensures same { result.cartridge.ghost_name ≡ cartridge.entry.ghost_name }
        ensures cartridge { result.cartridge.now ≡ cartridge.old }
        ensures on { result.on ≡ end_track (C.Reading.cells cartridge.old) }
    {
        let on = end_track(cartridge);
        Head { cartridge, on }
    }

    // The cells that the track can still take.
    pub(crate) fn room_left(&self) -> u32
        ensures { result ≡ C.Reading.room self.now.cartridge.now - length (track (C.Reading.cells self.now.cartridge.now) self.now.on) }
    {
        self.cartridge.capacity() - track_length(self.cartridge, self.on)
    }

    // Whether no further track could take an item.
    pub(crate) fn media_ends(&self) -> bool
        requires { self.now.on ≡ end_track (C.Reading.cells self.now.cartridge.now) }
        ensures { result ≡ media_ends (C.Reading.room self.now.cartridge.now) (C.Reading.cells self.now.cartridge.now) }
    {
        self.cartridge.capacity() < ITEM_ROOM || self.cartridge.tracks() <= self.on + 1
    }
}
