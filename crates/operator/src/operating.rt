// A deck, and the obligation that its begin handed out.
ghost use Rattle.std.specs.Prelude.{◌≡◌, is_some};
ghost use Rattle.deck.specs.Ending.{is_open};
ghost use Rattle.deck.specs.State.{deck_state};

use deck::{Deck, Obligation};

mod finishing;
mod flaws;
mod recording;
mod replaying;

// The obligation is in hand exactly while a recording is open. So an operator cannot be let go either: only finish takes it.
// Its deck is lent out to no one, since another's begin or stop would part the two: each call is passed on.
pub struct Operator<C> {
    deck: Deck<C>,
    held: Option<Obligation>,
    ghost paired: { is_open (deck_state deck.session) ≡ is_some held },
}
