// The QIC-24 recorded block: its code, its check, its address, and the copy that they make.

#![tactic(auto)]

mod crc16;
mod decoding;
mod encoding;
mod fault;
mod item;
mod layout;
mod opening;
mod pen;
mod reading;
mod sense;

pub use crc16::crc;
pub use decoding::decode;
pub use encoding::{code_byte, encode};
pub use fault::{CopyFault, GroupFault};
pub use item::{Content, Item};
pub use layout::{BODY, LONGEST, Preamble};
pub use opening::{OPENING, find_opening};
