// The deck: recording and replay over any cartridge.

#![tactic(auto)]

mod deck;
mod ending;
mod failed;
mod head;
mod laws;
mod measures;
mod next;
mod obligation;
mod pending;
mod phase;
mod refusal;
mod session;

pub use deck::Deck;
pub use laws::{copy_cells, first_number, room_to_finish};
pub use next::Next;
pub use obligation::{Obligation, StopRefusal};
pub use refusal::Refusal;
