// What next finds on a tape.
use crate::cursor::ReplayCursor;
use crate::place::TapePlace;
use qic24::Item;

// Not an Option: the end tells something too.
#[derive(Clone, Copy, PartialEq, Eq, Debug)]
pub enum Found {
    // the expected item, where it stands, and where the replay goes on
    Item {
        place: TapePlace,
        item: Item,
        after: ReplayCursor,
    },
    // the end, and whether the number after the expected one was passed over
    End {
        passed: bool,
    },
}
