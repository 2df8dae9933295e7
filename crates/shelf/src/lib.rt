// The shelf list: the files of a cartridge, and the row of each block.

#![tactic(auto)]

mod filing;
mod looking;
mod refusal;
mod row;
mod survey;

pub use looking::lookup;
pub use row::ShelfRow;
