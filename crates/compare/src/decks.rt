// Decks over a sheet, their calls, and the tracks after them.
ghost use Rattle.std.specs.Prelude.{◌≤◌, length};

use crate::calls::{perform, print_number};
use crate::cartridges::print_done;
use crate::records::{Kind, Records, StoreRequest};
use interval::IntervalStore;
use operator::Operator;
use packed::PackedStore;
use qic24::{Content, Item, LONGEST, Preamble, encode};
use sampling::hash_of_track;
use tape::{FlawSheet, Reading, Recording, Refusal, track_length};

fn print_tracks<C: Reading>(rt: &HostRuntime, cartridge: &C) -> anyhow::Result<()> {
    for track in 0..cartridge.tracks() {
        let length = track_length(cartridge, track);
        let hash = hash_of_track(cartridge, track);
        println!(rt; "track {track} {length} {hash:016x}")?;
    }
    Ok(())
}

// Appends the copy of a mark to the first track, cut off after so many cells.
fn lay<C: Recording>(store: &mut C, number: u32, most: usize) {
    if let Some(item) = Item::new(number, Content::Mark) {
        let mut cells = [0; LONGEST];
        let length = encode(Preamble::Normal, 0, &item, &mut cells).min(most);
        let _ = store.append(0, &cells[..length]);
    }
}

// A count, and so many marks that are laid by hand: a number and a length for each.
fn lay_all<C: Recording>(store: &mut C, records: &mut Records<'_>)
    ensures { length records.new.left.now ≤ length records.old.left.now }
{
    for _ in 0..records.byte() {
        let number = u32::from(records.short());
        lay(store, number, usize::from(records.short()));
    }
}

// The calls that the next records are.
fn perform_all<C: Recording>(
    rt: &HostRuntime,
    operator: &mut Operator<FlawSheet<C>>,
    records: &mut Records<'_>,
) -> anyhow::Result<()>
    ensures { length records.new.left.now ≤ length records.old.left.now }
{
    while let Some(call) = records.next_on_deck() {
        perform(rt, operator, call)?;
    }
    Ok(())
}

// The calls that the next records are, the end of a recording that they leave open, and the tracks after them.
fn operate<C: Recording>(
    rt: &HostRuntime,
    operator: &mut Operator<FlawSheet<C>>,
    records: &mut Records<'_>,
) -> anyhow::Result<()>
    ensures { length records.new.left.now ≤ length records.old.left.now }
{
    perform_all(rt, operator, records)?;
    match operator.stop() {
        Err(deck::Refusal::NotRecording) => {}
        kept => print_number(rt, "stop", kept)?,
    }
    print_tracks(rt, operator.cartridge())
}

// How a store was made, marks that are laid on it, and the calls of a deck over it.
fn run_on<C: Recording + Drop>(
    rt: &HostRuntime,
    made: (C, Result<(), Refusal>),
    records: &mut Records<'_>,
) -> anyhow::Result<()>
    ensures { length records.new.left.now ≤ length records.old.left.now }
{
    let (mut store, answer) = made;
    print_done(rt, answer)?;
    lay_all(&mut store, records);
    let mut operator = Operator::new(FlawSheet::new(store));
    let operated = operate(rt, &mut operator, records);
    // The store is looked at before, since it is large to be handed back. Open is only what a failed line left so.
    let (_sheet, _stopped) = operator.finish();
    operated
}

// Over as many bytes as each kind of store may need, but no more than so many a track.
pub(crate) fn deck_record(
    rt: &HostRuntime,
    request: StoreRequest,
    records: &mut Records<'_>,
) -> anyhow::Result<()>
    ensures { length records.new.left.now ≤ length records.old.left.now }
{
    let StoreRequest {
        kind,
        tracks,
        capacity,
    } = request;
    let size = (capacity as usize).min(1_000_000) * tracks as usize;
    let memory = vec![in rt.alloc(); 0xA5u8; size]?;
    match kind {
        Kind::Packed => run_on(rt, PackedStore::new(memory, tracks, capacity), records),
        Kind::Interval => run_on(rt, IntervalStore::new(memory, tracks, capacity), records),
    }
}
