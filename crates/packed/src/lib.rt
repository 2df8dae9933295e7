// The packed store: a cartridge in memory, eight cells a byte.

#![tactic(auto)]

mod packed;

pub use packed::PackedStore;
