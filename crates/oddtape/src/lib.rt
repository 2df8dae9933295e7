// An odd cartridge: one short track that drops every third one that it is sent, counted over all its appends.
// Nothing that a cartridge promises speaks of such a rule, and it is a cartridge all the same.

#![tactic(auto)]

mod odd;

pub use odd::OddTape;
