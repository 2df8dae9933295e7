// Replay: the sound copies of a tape in their order, and the items that they give.

#![tactic(auto)]

mod copies;
mod counting;
mod cursor;
mod found;
mod place;
mod scanning;
mod seeking;
mod standing;
mod unlocated;

pub use counting::next_number;
pub use cursor::ReplayCursor;
pub use found::Found;
pub use place::TapePlace;
pub use seeking::next_item;
pub use standing::copy_stands;
pub use unlocated::{UnlocatedNumber, UnsoundOpening};
