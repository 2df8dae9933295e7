// An operator: a deck together with the obligation of the recording that is open on it.

#![tactic(auto)]

mod closing;
mod operating;

pub use operating::Operator;
