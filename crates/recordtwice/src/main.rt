// Two recordings on a new cartridge: what a program does with the obligations that begin hands out.

#![tactic(auto)]

ghost use Rattle.std.specs.Prelude.{◌≡◌, true};
ghost use Rattle.deck.specs.Ending.{is_open};
ghost use Rattle.deck.specs.State.{deck_state};

use deck::{Deck, Obligation, Refusal, StopRefusal};
use packed::PackedStore;
use tape::{Reading, Recording};

const CAPACITY: u32 = 480_000;

const BYTES: usize = 60_000;

// Stops a recording; how many items it kept, or none where one could not be written. By hand and with no operator, as this program shows the obligation itself.
fn close<C: Recording>(deck: &mut Deck<C>, obligation: Obligation) -> Option<u32>
    requires { is_open (deck_state deck.old.session) ≡ true }
{
    match deck.stop(obligation) {
        Ok(kept) => Some(kept),
        Err(StopRefusal::Unwritable(_)) => None,
        Err(StopRefusal::NotRecording(_obligation)) => unreachable(),
    }
}

// A block, and a mark where the block was taken.
fn record_block<C: Recording>(deck: &mut Deck<C>) -> Result<Option<u32>, Refusal> {
    let (_, obligation) = deck.begin()?;
    match deck.write(&[0x3C; 512]) {
        Ok(_) => {
            let _ = deck.mark();
            Ok(close(deck, obligation))
        }
        Err(_) => Ok(close(deck, obligation)),
    }
}

// A mark in each of two recordings.
fn record_marks<C: Recording>(deck: &mut Deck<C>) -> Result<(Option<u32>, Option<u32>), Refusal> {
    let (_, obligation) = deck.begin()?;
    let _ = deck.mark();
    let one = close(deck, obligation);
    let (_next, obligation) = deck.begin()?;
    let _ = deck.mark();
    let two = close(deck, obligation);
    Ok((one, two))
}

fn show(rt: &HostRuntime, kept: Option<u32>) -> anyhow::Result<()> {
    match kept {
        Some(kept) => println!(rt; "kept {kept}")?,
        None => println!(rt; "not written")?,
    }
    Ok(())
}

fn run(rt: &HostRuntime) -> anyhow::Result<()> {
    let memory = vec![in rt.alloc(); 0u8; BYTES]?;
    let (store, _) = PackedStore::new(memory, 1, CAPACITY);
    let mut deck = Deck::new(store);
    match record_block(&mut deck) {
        Ok(kept) => show(rt, kept)?,
        Err(refusal) => println!(rt; "refused {}", refusal.number())?,
    }
    match record_marks(&mut deck) {
        Ok((one, two)) => {
            show(rt, one)?;
            show(rt, two)?;
        }
        Err(refusal) => println!(rt; "refused {}", refusal.number())?,
    }
    Ok(())
}

fn main(rt: HostRuntime) -> anyhow::Result<()> {
    run(&rt)
}
