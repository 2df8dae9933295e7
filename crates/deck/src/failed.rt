// An item that can't be written.
use qic24::Item;

// Its number.
#[derive(Clone, Copy)]
pub struct FailedItem {
    pub number: u32,
}

impl From<&Item> for FailedItem {
    ghost use Rattle.std.specs.Prelude.{◌≡◌};

    ghost from_gives = { λ item failed. failed.number ≡ item.now.number };

    fn from(item: &Item) -> FailedItem {
        FailedItem {
            number: item.number(),
        }
    }
}
