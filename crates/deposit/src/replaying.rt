// The replay of a whole tape.
ghost use Rattle.std.specs.Prelude.{IfOk};
ghost use Rattle.replay.specs.Seeking.{tape_replay};
ghost use Rattle.deposit.specs.WholeReplay.{Replays};

use qic24::Item;
use replay::{Found, ReplayCursor, UnlocatedNumber, next_item};
use std::alloc::{AllocError, Global};
use tape::Reading;

// The end of a replay: nothing is left; whether the number after the expected one was passed over.
#[derive(Clone, Copy, PartialEq, Eq, Debug)]
pub struct ReplayEnd {
    pub passed: bool,
}

// The items that it hands out, and its end or the number that is not located.
#[derive(Drop)]
pub struct Replayed {
    pub items: Vec<Item>,
    pub ending: Result<ReplayEnd, UnlocatedNumber>,
}

// Replays a tape from a rewind to its end.
pub(crate) fn replay_all<C: Reading>(cartridge: &C, heap: Global) -> Result<Replayed, AllocError>
    ensures { IfOk result (λ p. Replays p (tape_replay (C.Reading.cells cartridge.now))) }
{
    let mut items = Vec::new(heap);
    let mut cursor = ReplayCursor::rewound();
    let ending = loop {
        match next_item(cartridge, &cursor) {
            Ok(Found::Item { item, after, .. }) => {
                items.push(item)?;
                cursor = after;
            }
            Ok(Found::End { passed }) => break Ok(ReplayEnd { passed }),
            Err(unlocated) => break Err(unlocated),
        }
    };
    Ok(Replayed { items, ending })
}
