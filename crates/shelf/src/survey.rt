// Surveying a cartridge. Not public before the call whose contract says that list and tape agree.
ghost use Rattle.std.specs.Prelude.{◌≡◌, length, slice_set, IfOk};
ghost use Rattle.qic24.specs.Decode.{mapped_ok};
ghost use Rattle.shelf.specs.Survey.{tape_shelf, survey_by, PutOver};

use crate::filing::next_file;
use crate::refusal::SurveyRefusal;
use crate::row::ShelfRow;
use replay::{ReplayCursor, UnlocatedNumber};
use tape::Reading;

// Puts a row in its place, if there is such a place.
fn put_row(rows: &mut [ShelfRow], at: usize, row: ShelfRow)
    ensures { rows.new ≡ slice_set rows.old at row }
{
    // by index: of what get_mut lends a proof would not know the row
    if at < rows.len() {
        rows[at] = row;
    }
}

// Replays the whole tape and answers how many files it has; as many of them as there are rows for are filled in.
fn list_rows<C: Reading>(cartridge: &C, rows: &mut [ShelfRow]) -> Result<usize, UnlocatedNumber>
    ensures count { result ≡ mapped_ok length (tape_shelf (C.Reading.cells cartridge.now)) }
    ensures rows { IfOk (tape_shelf (C.Reading.cells cartridge.now)) (λ list. PutOver list rows.old rows.new) }
{
    let mut cursor = ReplayCursor::rewound();
    let mut filed = 0;
    while let Some(row) = next_file(cartridge, &mut cursor)? {
        put_row(rows, filed, row);
        // a file that no row is left for counts too
        filed += 1;
        // an open row is the last one: the end was found behind it
        if !row.closed {
            return Ok(filed);
        }
    }
    Ok(filed)
}

// Fills the first rows with the files of a cartridge, and answers how many there are; a refusal leaves the rows.
pub(crate) fn survey_rows<C: Reading>(
    cartridge: &C,
    rows: &mut [ShelfRow],
) -> Result<usize, SurveyRefusal>
    ensures answer { result ≡ (survey_by (tape_shelf (C.Reading.cells cartridge.now)) rows.old).answer }
    ensures rows { rows.new ≡ (survey_by (tape_shelf (C.Reading.cells cartridge.now)) rows.old).rows }
{
    // counted first, so that nothing is filled in where they do not fit
    let count = list_rows(cartridge, &mut [])?;
    if rows.len() < count {
        return Err(SurveyRefusal::TooFewRows);
    }
    Ok(list_rows(cartridge, rows)?)
}
