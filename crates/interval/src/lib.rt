// The interval store: a cartridge in memory, by the zeros between its ones.

#![tactic(auto)]

mod interval;

pub use interval::IntervalStore;
