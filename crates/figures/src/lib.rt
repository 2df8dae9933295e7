// The bench figures of the station that are proved, as one table.

#![tactic(auto)]

ghost use Rattle.std.specs.Prelude.{◌≡◌, ◌≤◌, [], ◌∷◌, ◌++◌, Some, None};
ghost use Rattle.qic24.specs.Cells.{nibble_cells};
ghost use Rattle.qic24.specs.Copy.{address};
ghost use Rattle.figures.specs.ReplayFigures.{FiguresOfTheReplay};
ghost use Rattle.figures.specs.Starred.{the_figures, FiguresOfTheFormat};

use qic24::{Content, Item, code_byte, find_opening};

#[cfg(test)]
mod tests;

// What the format's own functions answer for these figures.
#[derive(Clone, Copy)]
pub struct Starred {
    // the ten cells of the bytes 00, FF and 3C
    pub zero: [u8; 10],
    pub ones: [u8; 10],
    pub mixed: [u8; 10],
    // the address of number 70,000 on track 2
    pub address: [u8; 4],
    // the first opening in the cells of the nibbles F, C and E, which hold eight ones and 00111
    pub opening: Option<usize>,
}

// The address of a mark under a number, or zeros where there is no such mark.
fn address_of(track: u8, number: u32) -> [u8; 4]
    ensures { 1 ≤ number → number ≤ 1048575 → result ≡ address track number }
{
    // a match, since a closure for map_or would need a contract of its own
    match Item::new(number, Content::Mark) {
        Some(item) => item.address(track),
        None => [0; 4],
    }
}

// The cells of the nibbles F, C and E.
fn f_c_e() -> &'static [u8; 15]
    ensures { result.now ≡ nibble_cells 0xF ++ (nibble_cells 0xC ++ nibble_cells 0xE) }
{
    &[0, 1, 1, 1, 1, 1, 1, 1, 1, 0, 0, 1, 1, 1, 0]
}

// The table.
pub fn proved_figures() -> Starred
    ensures table { result ≡ the_figures }
    ensures format { FiguresOfTheFormat }
    ensures replay { FiguresOfTheReplay }
{
    Starred {
        zero: code_byte(0x00),
        ones: code_byte(0xFF),
        mixed: code_byte(0x3C),
        address: address_of(2, 70_000),
        opening: find_opening(f_c_e(), 0),
    }
}
