// Finding where copies begin.
ghost use Rattle.std.specs.Prelude.{ℕ, ◌≤◌, map, length, IfSome};
ghost use Rattle.qic24.specs.Cells.{cell};
ghost use Rattle.qic24.specs.Laws.{NoNineOnes, NoOpeningInside};
ghost use Rattle.qic24.specs.Opening.{FirstOpening};

use crate::sense::cell_of;

// The cells of an opening: nine ones, then 00111.
pub const OPENING: usize = 14;

// They as a number, the first one highest.
const PATTERN: u16 = 0b11_1111_1110_0111;

// The first place, from a place on, that an opening ends right before.
pub fn find_opening(cells: &[u8], from: usize) -> Option<usize>
    ensures first { FirstOpening (map cell cells.now) from result }
    ensures within { IfSome result (λ p. (from ≤ p) × (p ≤ length cells.now)) }
    ensures runs { NoNineOnes }
    ensures inside { NoOpeningInside }
{
    let start = from.saturating_sub(OPENING);
    let near = cells.get(start..)?;
    // the last fourteen cells since the start; the pattern begins with a one, so fewer cannot match it
    let mut seen = 0;
    for (more, cell) in near.iter().enumerate() {
        seen = (seen & 0x1FFF) * 2 + cell_of(*cell);
        if seen == PATTERN {
            return Some(start + more + 1);
        }
    }
    None
}
