// The numbers of a recording.
ghost use Rattle.std.specs.Prelude.{◌≡◌, ◌-◌, ◌≤◌, if◌then◌else◌, Some, None, nat_eq};
ghost use Rattle.std.specs.Option.{option_map};
ghost use Rattle.qic24.specs.Copy.{held};
ghost use Rattle.deck.specs.Calls.{item_of};
ghost use Rattle.deck.specs.Deck.{deck_recording, nothing_pending};
ghost use Rattle.deck.specs.Measures.{number_limit};
ghost use Rattle.deck.specs.Phases.{unchecked_item};
ghost use Rattle.deck.specs.State.{session_state};

use super::Session;
use crate::pending::Pending;
use crate::phase::Phase;
use qic24::{Content, Item};

impl Session {
    // A recording in which nothing is recorded yet.
    pub(crate) fn begun(next: u32) -> Session
        requires { (1 ≤ next) × (next ≤ number_limit) }
        ensures { session_state result ≡ deck_recording (record { first = next; next = next }) nothing_pending }
    {
        Session {
            first: next,
            next,
            phase: Phase::Clear,
        }
    }

    // The item that takes the next number, unless the numbers are used up.
    pub(crate) fn next_item(&self, content: &Content) -> Option<Item>
        ensures { option_map held result ≡ (if nat_eq self.now.next number_limit then None else Some (item_of self.now.next content.now)) }
    {
        Item::new(self.next, *content)
    }

    // The item that is still unchecked.
    pub(crate) fn unchecked(&self) -> Option<Item>
        ensures { option_map held result ≡ unchecked_item self.now.next self.now.phase }
    {
        match &self.phase {
            Phase::Unchecked(pending) => Item::new(self.next - 1, Content::from(pending)),
            Phase::Clear | Phase::Failed(_) => None,
        }
    }

    // The items taken since begin.
    pub(crate) fn taken(&self) -> u32
        ensures { result ≡ self.now.next - self.now.first }
    {
        self.next.saturating_sub(self.first)
    }
}
