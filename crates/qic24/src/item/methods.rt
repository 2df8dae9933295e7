// Making an item, and looking at it.
ghost use Rattle.std.specs.Prelude.{◌≡◌};
ghost use Rattle.std.specs.Option.{option_map};
ghost use Rattle.qic24.specs.Copy.{held, item_from, address, counted, item_crc, two_bytes};
ghost use Rattle.qic24.specs.Crc.{crc};

use super::{Content, Item, MOST};
use crate::crc16::{crc, feed_all};
use crate::layout::DATA;

// What a mark's data count as.
const MARK_COUNTS: [u8; DATA] = [0xFF; DATA];

impl Content {
    fn crc(&self) -> u16
        ensures { result ≡ crc (counted self.now) }
    {
        match self {
            Content::Block(bytes) => crc(bytes),
            Content::Mark => crc(&MARK_COUNTS),
        }
    }
}

impl Item {
    // None where the number is 0 or does not fit an address.
    pub fn new(number: u32, content: Content) -> Option<Self>
        ensures { option_map held result ≡ item_from number content }
    {
        if number == 0 || number > MOST {
            return None;
        }
        Some(Item { number, content })
    }

    pub fn number(&self) -> u32
        ensures { result ≡ self.now.number }
    {
        self.number // never 0, by the type
    }

    pub fn content(&self) -> &Content
        ensures { result.now ≡ self.now.content }
    {
        &self.content
    }

    // The four bytes of the address on a track: the track, a control nibble 0, and the number.
    pub fn address(&self, track: u8) -> [u8; 4]
        ensures { result ≡ address track self.now.number }
    {
        let [_, high, middle, low] = self.number.to_be_bytes();
        [track, high, middle, low]
    }

    // The CRC on a track: over the data, then the address.
    fn crc(&self, track: u8) -> u16
        ensures { result ≡ item_crc track (held self.now) }
    {
        feed_all(self.content.crc(), &self.address(track))
    }

    // Its two bytes, high byte first.
    pub(crate) fn check_bytes(&self, track: u8) -> [u8; 2]
        ensures { result ≡ two_bytes (item_crc track (held self.now)) }
    {
        self.crc(track).to_be_bytes()
    }
}
