// The items of a replay as files, one after the other.
ghost use Rattle.std.specs.Prelude.{◌≡◌, false, [], IfSome, Ok, IfOk};
ghost use Rattle.shelf.specs.Survey.{shelf_from, next_row, GoesFurther};

use crate::row::ShelfRow;
use qic24::Content;
use replay::{Found, ReplayCursor, UnlocatedNumber, next_item};
use tape::Reading;

// The row of the next file; none at the end. The cursor moves past its items.
pub(crate) fn next_file<C: Reading>(
    cartridge: &C,
    cursor: &mut ReplayCursor,
) -> Result<Option<ShelfRow>, UnlocatedNumber>
    ensures row { shelf_from (C.Reading.cells cartridge.now) cursor.old ≡ next_row result (shelf_from (C.Reading.cells cartridge.now) cursor.new) }
    ensures further { IfOk result (λ row. IfSome row (λ _. GoesFurther (C.Reading.cells cartridge.now) cursor.old cursor.new)) }
    ensures last { IfOk result (λ row. IfSome row (λ r. r.closed ≡ false → shelf_from (C.Reading.cells cartridge.now) cursor.new ≡ Ok [])) }
{
    let mut file = None;
    // no iterator: a refusal stays at the cursor, and is found there again
    while let Found::Item { item, after, .. } = next_item(cartridge, cursor)? {
        *cursor = after;
        let mut row = file.unwrap_or(ShelfRow {
            first: item.number(),
            count: 0,
            closed: false,
        });
        match item.content() {
            Content::Block(_) => row.count += 1,
            Content::Mark => {
                row.closed = true;
                return Ok(Some(row));
            }
        }
        file = Some(row);
    }
    Ok(file)
}
