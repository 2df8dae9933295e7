// A byte that stands for a cell.
ghost use Rattle.std.specs.Prelude.{◌≡◌};
ghost use Rattle.qic24.specs.Cells.{cell};

// The cell: any byte but 0 is a one.
pub(crate) fn cell_of(byte: u8) -> u16
    ensures { result ≡ cell byte }
{
    u16::from(byte != 0)
}
