// How fast a deck records and replays.
use crate::clock::Watch;
use crate::stores::Store;
use crate::{TIMES, block};
use deck::Next;
use operator::Operator;
use tape::{Reading, Recording, track_length};

const BLOCKS: u32 = 1_500;

// How many blocks a recording kept.
fn record_all<C: Recording>(operator: &mut Operator<C>, bytes: &[u8; 512]) -> u32 {
    let _ = operator.begin();
    for _ in 0..BLOCKS {
        let _ = operator.write(bytes);
    }
    operator.stop().unwrap_or(0)
}

// How many items the replay hands out.
fn replay_all<C: Reading>(operator: &mut Operator<C>) -> u32 {
    let _ = operator.rewind();
    let mut bytes = [0; 512];
    let mut count = 0u32;
    while let Ok(Next::Block { .. } | Next::Mark { .. }) = operator.next(&mut bytes) {
        count = count.saturating_add(1);
    }
    count
}

// Records on a new store each time; the last cartridge is handed out, with its recording on it.
fn record_rates<C: Store + Recording + Drop>(rt: &HostRuntime) -> anyhow::Result<C> {
    let bytes = block();
    let mut watch = Watch::new();
    let mut recorded = C::empty(rt)?;
    for _ in 0..TIMES {
        let mut operator = Operator::new(C::empty(rt)?);
        let kept = watch.time(rt, || record_all(&mut operator, &bytes));
        let (cartridge, _) = operator.finish();
        recorded = cartridge;
        println!(rt; "recorded {}", kept?)?;
    }
    let rate = watch.rate(u64::from(BLOCKS));
    eprintln!(rt; "{}_record {rate} blocks/s", C::NAME)?;
    Ok(recorded)
}

fn replay_rates<C: Store + Recording + Drop>(rt: &HostRuntime, recorded: C) -> anyhow::Result<()> {
    let name = C::NAME;
    let cells = track_length(&recorded, 0);
    let mut operator = Operator::new(recorded);
    let mut watch = Watch::new();
    let timed = time_replays(rt, &mut watch, &mut operator, name);
    let _ = operator.finish();
    timed?;
    let rate = watch.rate(u64::from(cells));
    eprintln!(rt; "{name}_replay {rate} cells/s")?;
    Ok(())
}

fn time_replays<C: Reading>(
    rt: &HostRuntime,
    watch: &mut Watch,
    operator: &mut Operator<C>,
    name: &str,
) -> anyhow::Result<()> {
    for _ in 0..TIMES {
        let count = watch.time(rt, || replay_all(operator))?;
        println!(rt; "{name}_replay {count}")?;
    }
    Ok(())
}

pub(crate) fn deck_rates<C: Store + Recording + Drop>(rt: &HostRuntime) -> anyhow::Result<()> {
    let recorded: C = record_rates(rt)?;
    replay_rates(rt, recorded)
}
