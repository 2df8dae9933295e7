// What is recorded: a block or a file mark, under a number.
ghost use Rattle.std.specs.Prelude.{◌≡◌, ◌≤◌, length};
ghost use Rattle.qic24.specs.Data.{data_cells};

use crate::layout::DATA;

mod methods;

// The greatest number that the 20 bits of an address hold.
pub(crate) const MOST: u32 = 1_048_575;

// A mark is an item of its own and no missing block, so this is no Option.
#[derive(Clone, Copy, PartialEq, Eq, Debug)]
pub enum Content {
    Block([u8; DATA]),
    Mark,
}

// The number is one that the 20 bits of an address hold, and not 0. A block has 512 bytes, so the data field is whole.
#[derive(Clone, Copy, PartialEq, Eq, Debug)]
pub struct Item {
    number: u32,
    content: Content,
    ghost numbered: { (1 ≤ number) × (number ≤ 1048575) },
    pub ghost whole: { length (data_cells content) ≡ 5120 },
}
