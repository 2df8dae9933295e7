// Where a recording stands.
use crate::failed::FailedItem;
use crate::pending::Pending;

// Three names: an Option of a Result would not tell the states apart as plainly.
#[derive(Clone, Copy)]
pub enum Phase {
    // Nothing of it is unchecked.
    Clear,
    // This item is; its number is the one before the next.
    Unchecked(Pending),
    // This item could not be written.
    Failed(FailedItem),
}
