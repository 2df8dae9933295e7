// A deck holds a cartridge, and keeps the item that is still unchecked.
use crate::session::Session;
use replay::ReplayCursor;

mod flaws;
mod holding;
mod recording;
mod replaying;

#[derive(Drop)]
pub struct Deck<C> {
    cartridge: C,
    // the recording that is open
    session: Option<Session>,
    // where the replay goes on
    cursor: ReplayCursor,
}
