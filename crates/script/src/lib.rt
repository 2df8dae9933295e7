// The job script: a run of commands, one after the other, read one at a time.

#![tactic(auto)]

mod command;
mod inspection;
mod reader;
mod refusal;
#[cfg(test)]
mod tests;

pub use command::Command;
pub use inspection::{Inspection, inspect};
pub use reader::Reader;
pub use refusal::Refusal;
