// What a deck keeps of a recording between two calls.
ghost use Rattle.std.specs.Prelude.{◌≤◌};
ghost use Rattle.deck.specs.Phases.{least_next};
ghost use Rattle.deck.specs.Measures.{number_limit};

use crate::phase::Phase;

mod numbers;
mod stopping;
mod taking;

#[derive(Clone, Copy)]
pub struct Session {
    // what begin answered
    first: u32,
    next: u32,
    phase: Phase,
    ghost least: { least_next phase ≤ next },
    ghost most: { next ≤ number_limit },
}
