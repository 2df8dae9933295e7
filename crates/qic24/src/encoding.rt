// From an item to the cells of its copy.
ghost use Rattle.std.specs.Prelude.{◌≡◌, ◌≤◌, ◌++◌, length, drop};
ghost use Rattle.qic24.specs.Cells.{byte_cells};
ghost use Rattle.qic24.specs.Copy.{copy, held, preamble_ones};
ghost use Rattle.qic24.specs.Laws.{SameCellsSameItem, MarkIsNoBlock};

use crate::item::Item;
use crate::layout::{LONGEST, POSTAMBLE, Preamble};
use crate::pen::Pen;

const MARKER: [u8; 10] = [1, 1, 1, 1, 1, 0, 0, 1, 1, 1];

// Writes the copy of an item on a track into the front of the buffer, and answers how many cells it has.
pub fn encode(preamble: Preamble, track: u8, item: &Item, out: &mut [u8; LONGEST]) -> usize
    ensures size { result ≡ length (copy (preamble_ones preamble) track (held item.now)) }
    ensures buffer { out.new ≡ copy (preamble_ones preamble) track (held item.now) ++ drop result out.old }
    ensures bound { result ≤ 20195 }
    ensures distinct { SameCellsSameItem }
    ensures kinds { MarkIsNoBlock }
{
    let mut pen = Pen::new(out);
    pen.ones(preamble.ones());
    pen.cells(&MARKER);
    pen.body(track, item);
    pen.ones(POSTAMBLE);
    pen.at
}

fn write_byte(cells: &mut [u8; 10], byte: u8)
    ensures { cells.new ≡ byte_cells byte }
{
    let mut pen = Pen::new(cells);
    pen.byte(byte);
}

// The ten cells that a byte is recorded as.
pub fn code_byte(byte: u8) -> [u8; 10]
    ensures { result ≡ byte_cells byte }
{
    let mut cells = [0; 10];
    write_byte(&mut cells, byte);
    cells
}
