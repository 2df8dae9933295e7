// How fast the format and the stores are, or, called with the word `decks`, the deck: the names go to standard output, the rates to standard error.

#![tactic(auto)]

use clock::Watch;
use decks::deck_rates;
use interval::IntervalStore;
use packed::PackedStore;
use qic24::{BODY, Content, Item, LONGEST, Preamble, decode, encode};
use sampling::Scramble;
use std::env;
use stores::{COPY, store_rates};

mod clock;
mod decks;
mod stores;

// The cells of a copy with a normal preamble before its body.
const LEAD: usize = 130;

const COPIES: u32 = 20_000;

// Each figure is the best of so many.
const TIMES: u8 = 5;

// A block of bytes that follow no pattern.
fn block() -> [u8; 512] {
    let mut source = Scramble::new(0);
    let mut bytes = [0; 512];
    for byte in bytes.iter_mut() {
        *byte = source.next_byte();
    }
    bytes
}

// Encodes the same block under many numbers; the last copy is left in the buffer.
fn encode_all(cells: &mut [u8; LONGEST], bytes: &[u8; 512]) {
    for number in 1..=COPIES {
        if let Some(item) = Item::new(number, Content::Block(*bytes)) {
            let _ = encode(Preamble::Normal, 0, &item, cells);
        }
    }
}

// How many of the decodings gave the last number.
fn decode_all(body: &[u8]) -> u32 {
    let mut count = 0u32;
    for _ in 0..COPIES {
        if let Ok(item) = decode(0, body) {
            count = count.saturating_add(u32::from(item.number() == COPIES));
        }
    }
    count
}

fn encode_rates(rt: &HostRuntime, cells: &mut [u8; LONGEST]) -> anyhow::Result<()> {
    let bytes = block();
    let mut watch = Watch::new();
    for _ in 0..TIMES {
        watch.time(rt, || encode_all(cells, &bytes))?;
    }
    let rate = watch.rate(u64::from(COPIES));
    eprintln!(rt; "encode {rate} copies/s")?;
    Ok(())
}

fn decode_rates(rt: &HostRuntime, body: &[u8]) -> anyhow::Result<()> {
    let mut watch = Watch::new();
    let mut count = 0;
    for _ in 0..TIMES {
        count = watch.time(rt, || decode_all(body))?;
    }
    println!(rt; "decoded {count}")?;
    let rate = watch.rate(u64::from(COPIES));
    eprintln!(rt; "decode {rate} copies/s")?;
    Ok(())
}

fn run(rt: &HostRuntime) -> anyhow::Result<()> {
    let mut cells = [0; LONGEST];
    encode_rates(rt, &mut cells)?;
    decode_rates(rt, &cells[LEAD..LEAD + BODY])?;
    store_rates::<PackedStore>(rt, &cells[0..COPY])?;
    store_rates::<IntervalStore>(rt, &cells[0..COPY])
}

fn run_decks(rt: &HostRuntime) -> anyhow::Result<()> {
    deck_rates::<PackedStore>(rt)?;
    deck_rates::<IntervalStore>(rt)
}

fn main(rt: HostRuntime) -> anyhow::Result<()> {
    if env::args(&rt)?.count() > 1 {
        run_decks(&rt)
    } else {
        run(&rt)
    }
}
