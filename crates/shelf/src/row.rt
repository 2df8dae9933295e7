// One file of a cartridge.
ghost use Rattle.std.specs.Prelude.{◌≡◌};
ghost use Rattle.shelf.specs.Lookup.{row_first, row_extent};

use tape::Stretch;

#[derive(Clone, Copy, PartialEq, Eq, Debug)]
pub struct ShelfRow {
    // The number of its first block, or of its mark where it has none.
    pub first: u32,
    // How many blocks it has.
    pub count: u32,
    // Whether a mark closes it.
    pub closed: bool,
}

// The numbers of its blocks. That of its mark is in no row.
impl Stretch for ShelfRow {
    ghost first = { row_first };

    ghost extent = { row_extent };

    fn first(&self) -> u64 {
        u64::from(self.first)
    }

    fn extent(&self) -> u64 {
        u64::from(self.count)
    }
}
