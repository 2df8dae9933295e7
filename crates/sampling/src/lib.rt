// What several programs measure and compare with: bytes that follow no pattern, a hash that stands for many, and a track's cells.

#![tactic(auto)]

mod cells;
mod hash;
mod scramble;

pub use cells::{cells_of, hash_of_track};
pub use hash::{EMPTY, hash_of, hash_on};
pub use scramble::Scramble;
