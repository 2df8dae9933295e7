// The calls that a deck declines.
ghost use Rattle.std.specs.Prelude.{◌≡◌, true};
ghost use Rattle.deck.specs.Ending.{is_open};
ghost use Rattle.deck.specs.State.{deck_state};

use crate::act::Act;
use crate::show::{show_number, show_refusal};
use crate::trial::Trial;
use deck::{Deck, Obligation, Refusal, StopRefusal};
use packed::PackedStore;
use tape::{Reading, Recording};

fn deck(rt: &HostRuntime) -> anyhow::Result<Deck<PackedStore>> {
    let memory = vec![in rt.alloc(); 0xA5u8; 60_000]?;
    let (store, _) = PackedStore::new(memory, 1, 480_000);
    Ok(Deck::new(store))
}

// With no recording open.
fn while_idle(log: &mut String, deck: &mut Deck<PackedStore>) -> anyhow::Result<()> {
    show_number(log, "mark", deck.mark())?;
    show_number(log, "block", deck.write(&[1; 512]))?;
    show_number(log, "block", deck.write(&[1; 511]))?;
    match deck.next(&mut [0; 511]) {
        Ok(_) => {
            writeln!(log, "handed out")?;
            Ok(())
        }
        Err(refusal) => show_refusal(log, refusal),
    }
}

// Stops a recording that is open; by hand, since an operator hands its obligation to no other deck.
fn close(deck: &mut Deck<PackedStore>, obligation: Obligation) -> Result<u32, Refusal>
    requires { is_open (deck_state deck.old.session) ≡ true }
{
    match deck.stop(obligation) {
        Ok(kept) => Ok(kept),
        Err(StopRefusal::Unwritable(number)) => Err(Refusal::Unwritable(number)),
        Err(StopRefusal::NotRecording(_obligation)) => unreachable(),
    }
}

// Stops a recording of one deck by way of another, which hands the obligation back.
fn stop_elsewhere(
    log: &mut String,
    deck: &mut Deck<PackedStore>,
    other: &mut Deck<PackedStore>,
) -> anyhow::Result<()> {
    match deck.begin() {
        Err(refusal) => show_refusal(log, refusal),
        Ok((_, obligation)) => match other.stop(obligation) {
            Ok(kept) => show_number(log, "stop", Ok(kept)),
            Err(StopRefusal::Unwritable(number)) => show_number(log, "unwritable", Ok(number)),
            Err(StopRefusal::NotRecording(back)) => {
                let kept = close(deck, back);
                writeln!(log, "handed back")?;
                show_number(log, "stop", kept)
            }
        },
    }
}

pub(crate) fn trials(rt: &HostRuntime) -> anyhow::Result<()> {
    let mut log = String::new(rt.alloc());
    let mut one = deck(rt)?;
    let mut two = deck(rt)?;
    while_idle(&mut log, &mut one)?;
    stop_elsewhere(&mut log, &mut one, &mut two)?;
    println!(rt; "no recording open")?;
    print!(rt; "{log}")?;
    Trial {
        name: "a recording open",
        tracks: 1,
        capacity: 480_000,
        flaws: &[],
        laid: &[],
        recordings: &[&[
            Act::Begin,
            Act::Next,
            Act::Rewind,
            Act::Short,
            Act::Block(4),
            Act::Begin,
        ]],
    }
    .run(rt)
}
