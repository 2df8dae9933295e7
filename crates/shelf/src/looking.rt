// Looking up a block's row.
ghost use Rattle.shelf.specs.Lookup.{LooksUp};

use crate::row::ShelfRow;
use tape::stretch_holding;

// The row that has a block of this number. Any rows may be handed in; the search ends at one that begins beyond the number.
pub fn lookup(rows: &[ShelfRow], number: u32) -> Option<ShelfRow>
    ensures { LooksUp rows.now number result }
{
    // no `?`: a search's index is taken by let .. else, a rule of the project
    let Some(i) = stretch_holding(rows, u64::from(number)) else {
        return None;
    };
    Some(rows[i])
}
