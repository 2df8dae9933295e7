// Why a call of the deck is declined.
ghost use Rattle.std.specs.Prelude.{◌≡◌};
ghost use Rattle.deck.specs.Refusals.{refusal_number};
ghost use Rattle.deck.specs.declared.refusal.Refusal.TheVariants.{Unwritable, Unlocated};

use crate::failed::FailedItem;
use replay::UnlocatedNumber;
use std::fmt;

#[derive(Clone, Copy, PartialEq, Eq, Debug)]
pub enum Refusal {
    // A block not of 512 bytes, or a reading buffer under 512.
    WrongSize,
    // The capacity is less than what must be left on a track for an item.
    CapacityTooSmall,
    // No track is left that could take an item.
    MediaEnd,
    // The next number would be more than an address holds.
    NumbersUsedUp,
    // The item of this number can't be written.
    Unwritable(u32),
    NotRecording,
    StillRecording,
    // A number is not located; where a later one stands, and the last unsound opening before it.
    Unlocated(UnlocatedNumber),
}

impl Refusal {
    // A match, since two refusals carry values, so that no number can stand at a variant.
    pub fn number(self) -> u8
        ensures { result ≡ refusal_number self }
    {
        match self {
            Refusal::WrongSize => 1,
            Refusal::CapacityTooSmall => 11,
            Refusal::MediaEnd => 12,
            Refusal::NumbersUsedUp => 13,
            Refusal::Unwritable(_) => 14,
            Refusal::NotRecording => 15,
            Refusal::StillRecording => 16,
            Refusal::Unlocated(_) => 17,
        }
    }
}

// Written by hand, since clauses name the variant that `?` makes.
impl From<UnlocatedNumber> for Refusal {
    ghost from_gives = { λ w r. r ≡ Unlocated w };

    fn from(unlocated: UnlocatedNumber) -> Refusal {
        Refusal::Unlocated(unlocated)
    }
}

// Written by hand, since clauses name the variant that `?` makes.
impl From<FailedItem> for Refusal {
    ghost from_gives = { λ failed refusal. refusal ≡ Unwritable failed.number };

    fn from(failed: FailedItem) -> Refusal {
        Refusal::Unwritable(failed.number)
    }
}

impl std::error::Error for Refusal {}

// Prints its number; after 14 the item that can't be written, and after 17 the number that is not located.
impl fmt::Display for Refusal {
    ghost use Rattle.std.specs.Prelude.{Some};
    ghost use Rattle.deck.specs.Refusals.{refusal_text};

    ghost output = { λ refusal. Some (refusal_text refusal) };

    fn fmt<W: fmt::Write>(&self, f: &mut fmt::Formatter<W>) -> fmt::Result {
        let number = self.number();
        match self {
            Refusal::Unwritable(item) => write!(f, "{number} {item}"),
            Refusal::Unlocated(sought) => write!(f, "{number} {}", sought.expected),
            _ => write!(f, "{number}"),
        }
    }
}
