// Stores, and what is done with them.
ghost use Rattle.std.specs.Prelude.{◌≤◌, length};

use crate::records::{Kind, Records, StoreCall, StoreRequest};
use interval::IntervalStore;
use packed::PackedStore;
use sampling::hash_of;
use tape::{FlawSheet, Reading, Recording, Refusal};

// The longest read of a record.
const LONGEST: usize = 8_192;

pub(crate) fn print_done(rt: &HostRuntime, answer: Result<(), Refusal>) -> anyhow::Result<()> {
    match answer {
        Ok(()) => println!(rt; "ok")?,
        Err(refusal) => println!(rt; "refused {refusal}")?,
    }
    Ok(())
}

// The hash of what the buffer holds after a read.
fn print_read<C: Reading>(
    rt: &HostRuntime,
    sheet: &FlawSheet<C>,
    track: u8,
    place: u32,
    size: u16,
) -> anyhow::Result<()> {
    let mut buffer = [0xA5; LONGEST];
    let cells = &mut buffer[..usize::from(size).min(LONGEST)];
    let answer = sheet.read(track, place, cells);
    let hash = hash_of(cells);
    println!(rt; "cells {hash:016x}")?;
    print_done(rt, answer)
}

fn print_length<C: Reading>(
    rt: &HostRuntime,
    sheet: &FlawSheet<C>,
    track: u8,
) -> anyhow::Result<()> {
    match sheet.length(track) {
        Ok(cells) => println!(rt; "length {cells}")?,
        Err(refusal) => print_done(rt, Err(refusal))?,
    }
    Ok(())
}

fn perform<C: Recording>(
    rt: &HostRuntime,
    sheet: &mut FlawSheet<C>,
    call: StoreCall<'_>,
) -> anyhow::Result<()> {
    match call {
        StoreCall::Append { track, cells } => print_done(rt, sheet.append(track, cells)),
        StoreCall::Read { track, place, size } => print_read(rt, sheet, track, place, size),
        StoreCall::Length { track } => print_length(rt, sheet, track),
        StoreCall::Flaw(flaw) => print_done(rt, sheet.enter(flaw)),
    }
}

// A store, how it was made, and what is done with it in the next records.
fn run_on<C: Recording + Drop>(
    rt: &HostRuntime,
    made: (C, Result<(), Refusal>),
    records: &mut Records<'_>,
) -> anyhow::Result<()>
    ensures { length records.new.left.now ≤ length records.old.left.now }
{
    let (store, answer) = made;
    print_done(rt, answer)?;
    let mut sheet = FlawSheet::new(store);
    println!(rt; "store {} {}", sheet.tracks(), sheet.capacity())?;
    while let Some(call) = records.next_on_store() {
        perform(rt, &mut sheet, call)?;
    }
    Ok(())
}

// A store over so many bytes that are not clean.
pub(crate) fn store_record(
    rt: &HostRuntime,
    request: StoreRequest,
    size: u32,
    records: &mut Records<'_>,
) -> anyhow::Result<()>
    ensures { length records.new.left.now ≤ length records.old.left.now }
{
    let memory = vec![in rt.alloc(); 0xA5u8; (size as usize).min(10_000_000)]?;
    let StoreRequest {
        kind,
        tracks,
        capacity,
    } = request;
    match kind {
        Kind::Packed => run_on(rt, PackedStore::new(memory, tracks, capacity), records),
        Kind::Interval => run_on(rt, IntervalStore::new(memory, tracks, capacity), records),
    }
}
