// The end of a recording.
ghost use Rattle.std.specs.Prelude.{◌≡◌, true, false, IfErr, ◌≢◌};
ghost use Rattle.replay.specs.Seeking.{rewound_cursor};
ghost use Rattle.deck.specs.Calls.{stop_call};
ghost use Rattle.deck.specs.CallContract.{CallHad};
ghost use Rattle.deck.specs.Ending.{is_open};
ghost use Rattle.deck.specs.Refusals.{refusal_number};
ghost use Rattle.deck.specs.State.{deck_state};
ghost use Rattle.operator.specs.Stopping.{kept_answer};

use deck::{Deck, Obligation, Refusal, StopRefusal};
use tape::{Reading, Recording};

// Stops the recording that is open, whose obligation is thereby given back.
pub(crate) fn close<C: Recording>(
    deck: &mut Deck<C>,
    obligation: Obligation,
) -> Result<u32, Refusal>
    requires { is_open (deck_state deck.old.session) ≡ true }
    ensures had { CallHad C.Reading.room C.Reading.cells C.Reading.takes deck.old.cartridge deck.new.cartridge (deck_state deck.old.session) (deck_state deck.new.session) stop_call (kept_answer result) }
    ensures closed { is_open (deck_state deck.new.session) ≡ false }
    ensures cursor { deck.new.cursor ≡ rewound_cursor }
    ensures kept { IfErr result (λ e. (refusal_number e ≢ 14) → deck.new ≡ deck.old) }
{
    match deck.stop(obligation) {
        Ok(kept) => Ok(kept),
        Err(StopRefusal::Unwritable(number)) => Err(Refusal::Unwritable(number)),
        // a recording is open, so the obligation is not handed back
        Err(StopRefusal::NotRecording(_obligation)) => unreachable(),
    }
}
