// The lines of a deck's calls.
use crate::cartridges::print_done;
use crate::records::DeckCall;
use deck::{Next, Refusal};
use operator::Operator;
use replay::UnlocatedNumber;
use sampling::{Scramble, hash_of};
use tape::{FlawSheet, Reading, Recording};

// The longest block or buffer of a record.
const LONGEST: usize = 600;

// Where the later number stands, and the last unsound opening before it.
fn print_unlocated(rt: &HostRuntime, unlocated: UnlocatedNumber) -> anyhow::Result<()> {
    let UnlocatedNumber {
        expected,
        found,
        unsound,
    } = unlocated;
    println!(rt; "refused 17 {expected} {} {}", found.on, found.at)?;
    if let Some(unsound) = unsound {
        println!(rt; "unsound {} {}", unsound.place.on, unsound.place.at)?;
        println!(rt; "{}", unsound.cause)?;
    }
    Ok(())
}

fn print_refusal(rt: &HostRuntime, refusal: Refusal) -> anyhow::Result<()> {
    match refusal {
        Refusal::Unlocated(unlocated) => print_unlocated(rt, unlocated)?,
        _ => println!(rt; "refused {refusal}")?,
    }
    Ok(())
}

pub(crate) fn print_number(
    rt: &HostRuntime,
    done: &str,
    answer: Result<u32, Refusal>,
) -> anyhow::Result<()> {
    match answer {
        Ok(number) => println!(rt; "{done} {number}")?,
        Err(refusal) => print_refusal(rt, refusal)?,
    }
    Ok(())
}

// Bytes that follow from a seed.
fn seeded(seed: u32) -> [u8; LONGEST] {
    let mut source = Scramble::new(seed);
    let mut bytes = [0; LONGEST];
    for byte in bytes.iter_mut() {
        *byte = source.next_byte();
    }
    bytes
}

// The item that next hands out, and the hash of what the buffer holds then.
fn print_next<C: Reading>(
    rt: &HostRuntime,
    operator: &mut Operator<C>,
    size: usize,
) -> anyhow::Result<()> {
    let mut buffer = [0xA5; LONGEST];
    let block = &mut buffer[..size.min(LONGEST)];
    let answer = operator.next(block);
    let hash = hash_of(block);
    match answer {
        Ok(Next::Block { number }) => println!(rt; "next block {number} {hash:016x}")?,
        Ok(Next::Mark { number }) => println!(rt; "next mark {number} {hash:016x}")?,
        Ok(Next::End { passed }) => println!(rt; "next end {} {hash:016x}", u8::from(passed))?,
        Err(refusal) => print_refusal(rt, refusal)?,
    }
    Ok(())
}

pub(crate) fn perform<C: Recording>(
    rt: &HostRuntime,
    operator: &mut Operator<FlawSheet<C>>,
    call: DeckCall,
) -> anyhow::Result<()> {
    match call {
        DeckCall::Begin => print_number(rt, "begin", operator.begin()),
        DeckCall::Write { seed, size } => {
            let block = &seeded(seed)[..usize::from(size).min(LONGEST)];
            print_number(rt, "block", operator.write(block))
        }
        DeckCall::Mark => print_number(rt, "mark", operator.mark()),
        DeckCall::Stop => match operator.stop() {
            Err(Refusal::NotRecording) => {
                println!(rt; "nothing to stop")?;
                Ok(())
            }
            kept => print_number(rt, "stop", kept),
        },
        DeckCall::Next { size } => print_next(rt, operator, usize::from(size)),
        DeckCall::Rewind => match operator.rewind() {
            Ok(()) => {
                println!(rt; "rewound")?;
                Ok(())
            }
            Err(refusal) => print_refusal(rt, refusal),
        },
        DeckCall::Flaw(flaw) => print_done(rt, operator.enter_flaw(flaw)),
    }
}
