// How fast the stores append and read.
ghost use Rattle.std.specs.Prelude.{◌≡◌, IfOk};
ghost use Rattle.tape.specs.Tape.{blank};

use crate::TIMES;
use crate::clock::Watch;
use interval::IntervalStore;
use packed::PackedStore;
use std::alloc::AllocError;
use tape::{Reading, Recording};

// The cells of a copy with a normal preamble.
pub(crate) const COPY: usize = 5_315;

const CAPACITY: u32 = 20_000_000;

const RUNS: u32 = 3_762;

// The amount that a store is asked to take and to give: all runs.
const AMOUNT: u64 = 19_995_030;

// A store that is measured.
pub(crate) trait Store: Reading {
    const NAME: &'static str;

    // One of a track, with nothing on it.
    fn empty(rt: &HostRuntime) -> Result<Self, AllocError>
        ensures { IfOk result (λ store. Self.Reading.cells store ≡ blank 1) };
}

impl Store for PackedStore {
    const NAME: &'static str = "packed";

    fn empty(rt: &HostRuntime) -> Result<Self, AllocError> {
        let memory = vec![in rt.alloc(); 0xA5u8; 2_500_000]?;
        let (store, _) = PackedStore::new(memory, 1, CAPACITY);
        Ok(store)
    }
}

impl Store for IntervalStore {
    const NAME: &'static str = "interval";

    fn empty(rt: &HostRuntime) -> Result<Self, AllocError> {
        let memory = vec![in rt.alloc(); 0xA5u8; CAPACITY as usize]?;
        let (store, _) = IntervalStore::new(memory, 1, CAPACITY);
        Ok(store)
    }
}

// How many of the runs were taken.
fn append_all<C: Recording>(store: &mut C, copy: &[u8]) -> u32 {
    let mut count = 0u32;
    for _ in 0..RUNS {
        count = count.saturating_add(u32::from(store.append(0, copy).is_ok()));
    }
    count
}

// Reads all runs, and counts ones, a cell of each run, so that the reads are for something.
fn read_all<C: Reading>(store: &C, cells: &mut [u8; COPY]) -> u32 {
    let mut count = 0u32;
    for run in 0..RUNS {
        if store.read(0, run * COPY as u32, cells).is_ok() {
            let place = run as usize * 7 % COPY;
            count = count.saturating_add(u32::from(cells[place]));
        }
    }
    count
}

// Appends to a new store each time; the last is handed out, full.
fn append_rates<C: Store + Recording + Drop>(rt: &HostRuntime, copy: &[u8]) -> anyhow::Result<C> {
    let name = C::NAME;
    let mut watch = Watch::new();
    let mut full = C::empty(rt)?;
    for _ in 0..TIMES {
        full = C::empty(rt)?;
        let count = watch.time(rt, || append_all(&mut full, copy))?;
        println!(rt; "{name} appended {count}")?;
    }
    eprintln!(rt; "{name}_append {} cells/s", watch.rate(AMOUNT))?;
    Ok(full)
}

fn read_rates<C: Store + Reading>(rt: &HostRuntime, store: &C) -> anyhow::Result<()> {
    let name = C::NAME;
    let mut cells = [0; COPY];
    let mut watch = Watch::new();
    for _ in 0..TIMES {
        let count = watch.time(rt, || read_all(store, &mut cells))?;
        println!(rt; "{name}_read {count}")?;
    }
    eprintln!(rt; "{name}_read {} cells/s", watch.rate(AMOUNT))?;
    Ok(())
}

pub(crate) fn store_rates<C: Store + Recording + Drop>(
    rt: &HostRuntime,
    copy: &[u8],
) -> anyhow::Result<()> {
    let full: C = append_rates(rt, copy)?;
    read_rates(rt, &full)
}
