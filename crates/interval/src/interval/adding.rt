// Cells added to the bytes of an interval store.
ghost use Rattle.std.specs.Prelude.{◌+◌, ◌≤◌, ◌<◌, [], ◌∷◌, map, length};
ghost use Rattle.tape.specs.Tape.{cell};
ghost use Rattle.interval.specs.Gaps.{Spelled};

use crate::interval::track::{Fill, ZEROS_ALONE};

// Adds one cell to a track that is filled so far, and answers how far it is then.
fn add_cell(bytes: &mut [u8], fill: Fill, sent: u8) -> Fill
    requires { fill.used < length bytes.old }
    ensures { Spelled fill bytes.old (cell sent ∷ []) bytes.new result }
{
    // No branch on the cell, which none can tell beforehand: the bar of interval_append.
    // A byte that is not in use yet may hold anything.
    let one = usize::from(sent != 0);
    bytes[fill.used] = fill.zeros as u8;
    let used = fill.used + one;
    let zeros = (fill.zeros + 1) * (1 - one);
    if zeros < usize::from(ZEROS_ALONE) {
        return Fill { used, zeros };
    }
    bytes[used] = ZEROS_ALONE;
    Fill {
        used: used + 1,
        zeros: 0,
    }
}

// Adds cells to a track that is filled so far, and answers how far it is then.
pub(crate) fn add_cells(bytes: &mut [u8], mut fill: Fill, sent: &[u8]) -> Fill
    requires { fill.used + fill.zeros + length sent.now ≤ length bytes.old }
    ensures { Spelled fill bytes.old (map cell sent.now) bytes.new result }
{
    for one in sent {
        fill = add_cell(bytes, fill, *one);
    }
    fill
}
