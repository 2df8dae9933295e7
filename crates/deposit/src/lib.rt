// Deposits: list and tape agree. The call that makes them is not public before its contract says so of its own runs.

#![tactic(auto)]

mod call;
mod depositing;
mod laws;
mod operating;
mod replaying;

pub use laws::kept_at_first;
