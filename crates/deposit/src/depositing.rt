// A deposit: two operators record on a cartridge, one after the other, and the tape is replayed.
ghost use Rattle.std.specs.Prelude.{◌≡◌, IfOk, MatchResult};
ghost use Rattle.replay.specs.Seeking.{tape_replay};
ghost use Rattle.deposit.specs.Depositing.{TwoOperators, KeptThenEnd};
ghost use Rattle.deposit.specs.WholeReplay.{Replays};

use crate::call::{Call, Operated};
use crate::operating::operate;
use crate::replaying::{Replayed, replay_all};
use std::alloc::{AllocError, AllocFailed, Global};
use tape::{Reading, Recording};

// The cartridge, what each operator was answered, and the replay, if there was memory for it.
#[derive(Drop)]
pub struct Deposited<C> {
    pub cartridge: C,
    pub one: Operated,
    pub two: Operated,
    pub replay: Result<Replayed, AllocError>,
}

// Lets the operators make their calls in turn, each of a deck that is made of the cartridge. The memory for the answers is asked for first, and without it the cartridge is handed back untouched.
pub(crate) fn deposit<C: Recording>(
    cartridge: C,
    one: &[Call<'_>],
    two: &[Call<'_>],
    heap: Global,
) -> Result<Deposited<C>, AllocFailed<C>>
    ensures operators { MatchResult result (λ d. TwoOperators (C.Reading.room cartridge) (C.Reading.cells cartridge) one.now d.one two.now d.two (C.Reading.cells d.cartridge)) (λ e. e.value ≡ cartridge) }
    ensures capacity { IfOk result (λ d. C.Reading.room d.cartridge ≡ C.Reading.room cartridge) }
    ensures replay { IfOk result (λ d. IfOk d.replay (λ p. Replays p (tape_replay (C.Reading.cells d.cartridge)))) }
    ensures kept { IfOk result (λ d. IfOk d.replay (λ p. KeptThenEnd (C.Reading.room cartridge) (C.Reading.cells cartridge) one.now d.one two.now d.two (C.Reading.cells d.cartridge) p)) }
{
    // no `?`: what goes back with the error is the cartridge itself
    let Ok(first) = Vec::with_capacity(heap, one.len()) else {
        return Err(AllocFailed { value: cartridge });
    };
    let Ok(second) = Vec::with_capacity(heap, two.len()) else {
        return Err(AllocFailed { value: cartridge });
    };
    let (cartridge, one) = operate(cartridge, one, first);
    let (cartridge, two) = operate(cartridge, two, second);
    let replay = replay_all(&cartridge, heap);
    Ok(Deposited {
        cartridge,
        one,
        two,
        replay,
    })
}
