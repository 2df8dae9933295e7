// The duty to stop a recording.
ghost use Rattle.std.specs.Prelude.{◌≡◌};
ghost use Rattle.deck.specs.Refusals.{stop_number};

use crate::failed::FailedItem;
use crate::refusal::Refusal;

// Begin hands it out and only stop takes it back: it cannot be let go, copied, or made elsewhere.
#[derive(PartialEq, Eq, Debug)]
pub struct Obligation {
    pub(crate) open: (),
}

// Why stop is declined.
#[derive(PartialEq, Eq, Debug)]
pub enum StopRefusal {
    // No recording is open; the obligation is handed back.
    NotRecording(Obligation),
    // The item of this number can't be written. The recording is closed.
    Unwritable(u32),
}

impl StopRefusal {
    // The number of the refusal of the same name.
    pub fn number(&self) -> u8
        ensures { result ≡ stop_number self.now }
    {
        match self {
            StopRefusal::NotRecording(_) => Refusal::NotRecording.number(),
            StopRefusal::Unwritable(item) => Refusal::Unwritable(*item).number(),
        }
    }
}

// Written by hand, since clauses name the variant that `?` makes.
impl From<FailedItem> for StopRefusal {
    ghost use Rattle.deck.specs.declared.obligation.StopRefusal.TheVariants.{Unwritable};

    ghost from_gives = { λ failed refusal. refusal ≡ Unwritable failed.number };

    fn from(failed: FailedItem) -> StopRefusal {
        StopRefusal::Unwritable(failed.number)
    }
}
