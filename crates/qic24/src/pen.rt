// Writing the cells of a copy into a lent buffer, one part after the other.
ghost use Rattle.std.specs.Prelude.{◌≡◌, ◌*◌, ◌<◌, length, map};
ghost use Rattle.std.specs.List.{range_with_len};
ghost use Rattle.qic24.specs.Cells.{byte_cells, nibble_cells};
ghost use Rattle.qic24.specs.Copy.{ones, coded, data_cells, mark_data, held, body};
ghost use Rattle.qic24.specs.Pens.{HasRoom, Writes};

use crate::item::{Content, Item};
use crate::layout::{BODY, DATA, DATA_CELLS};

const MARK_BYTE: [u8; 10] = [0, 0, 1, 0, 1, 0, 0, 1, 0, 1];

// The five cells of each nibble, from 0 to 15.
const NIBBLES: [[u8; 5]; 16] = [
    [1, 1, 0, 0, 1],
    [1, 1, 0, 1, 1],
    [1, 0, 0, 1, 0],
    [1, 0, 0, 1, 1],
    [1, 1, 1, 0, 1],
    [1, 0, 1, 0, 1],
    [1, 0, 1, 1, 0],
    [1, 0, 1, 1, 1],
    [1, 1, 0, 1, 0],
    [0, 1, 0, 0, 1],
    [0, 1, 0, 1, 0],
    [0, 1, 0, 1, 1],
    [1, 1, 1, 1, 0],
    [0, 1, 1, 0, 1],
    [0, 1, 1, 1, 0],
    [0, 1, 1, 1, 1],
];

// A constant carries no contract, so this function, which lends it, says what it holds.
fn nibbles() -> &'static [[u8; 5]; 16]
    ensures { result.now ≡ map nibble_cells (range_with_len 0 16) }
{
    &NIBBLES
}

// No Vec: the buffer is the caller's, of a fixed size, so the pen keeps its place beside it.
#[derive(Drop)]
pub(crate) struct Pen<'a> {
    out: &'a mut [u8],
    // where the next cell goes
    pub(crate) at: usize,
}

impl<'a> Pen<'a> {
    pub(crate) fn new(out: &'a mut [u8]) -> Pen<'a>
        ensures same { result.out.ghost_name ≡ out.entry.ghost_name }
        ensures place { result.at ≡ 0 }
        ensures cells { result.out.now ≡ out.old }
    {
        Pen { out, at: 0 }
    }

    pub(crate) fn cells(&mut self, cells: &[u8])
        requires { HasRoom self.old (length cells.now) }
        ensures { Writes self.old self.new cells.now }
    {
        let end = self.at + cells.len();
        self.out[self.at..end].copy_from_slice(cells);
        self.at = end;
    }

    pub(crate) fn ones(&mut self, count: usize)
        requires { HasRoom self.old count }
        ensures { Writes self.old self.new (ones count) }
    {
        let end = self.at + count;
        self.out[self.at..end].fill(1);
        self.at = end;
    }

    // The five cells of a nibble.
    fn nibble(&mut self, nibble: u8)
        requires room { HasRoom self.old 5 }
        requires small { nibble < 16 }
        ensures { Writes self.old self.new (nibble_cells nibble) }
    {
        self.cells(&nibbles()[usize::from(nibble)]);
    }

    // The ten cells of a byte: its high nibble, then its low nibble.
    pub(crate) fn byte(&mut self, byte: u8)
        requires { HasRoom self.old 10 }
        ensures { Writes self.old self.new (byte_cells byte) }
    {
        self.nibble(byte >> 4);
        self.nibble(byte & 0x0F);
    }

    fn bytes(&mut self, bytes: &[u8])
        requires { HasRoom self.old (length bytes.now * 10) }
        ensures { Writes self.old self.new (coded bytes.now) }
    {
        for byte in bytes {
            self.byte(*byte);
        }
    }

    // The data field of a mark.
    fn marks(&mut self)
        requires { HasRoom self.old DATA_CELLS }
        ensures { Writes self.old self.new mark_data }
    {
        // nothing to iterate over: 512 times the same cells
        for _mark in 0..DATA {
            self.cells(&MARK_BYTE);
        }
    }

    fn data(&mut self, content: &Content)
        requires { HasRoom self.old DATA_CELLS }
        ensures { Writes self.old self.new (data_cells content.now) }
    {
        match content {
            Content::Block(bytes) => self.bytes(bytes),
            Content::Mark => self.marks(),
        }
    }

    // The cells of an item on a track: data, address and CRC.
    pub(crate) fn body(&mut self, track: u8, item: &Item)
        requires { HasRoom self.old BODY }
        ensures { Writes self.old self.new (body track (held item.now)) }
    {
        self.data(item.content());
        self.bytes(&item.address(track));
        self.bytes(&item.check_bytes(track));
    }
}
