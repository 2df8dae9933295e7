// Runs the format, the cartridges and the deck on records from standard input and prints lines for each, to be compared with other software.

#![tactic(auto)]

use cartridges::store_record;
use decks::deck_record;
use format::{print_body, print_copy, print_opening};
use qic24::crc;
use records::{Record, Records};
use std::io::Read;

mod calls;
mod cartridges;
mod decks;
mod format;
mod records;

fn run(rt: &HostRuntime) -> anyhow::Result<()> {
    let mut input = Vec::new(rt.alloc());
    let _ = rt.stdin().read_to_end(&mut input)?;
    let mut records = Records::new(input.as_slice());
    while let Some(record) = records.next() {
        match record {
            Record::Check(bytes) => println!(rt; "crc {:04X}", crc(bytes))?,
            Record::Copy {
                preamble,
                track,
                number,
                content,
            } => print_copy(rt, preamble, track, number, content)?,
            Record::Body { track, cells } => print_body(rt, track, cells)?,
            Record::Opening { from, cells } => print_opening(rt, from, cells)?,
            Record::Store { request, size } => store_record(rt, request, size, &mut records)?,
            Record::Deck(request) => deck_record(rt, request, &mut records)?,
        }
    }
    Ok(())
}

fn main(rt: HostRuntime) -> anyhow::Result<()> {
    run(&rt)
}
