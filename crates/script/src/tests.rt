// Scripts at the edges: each command, and the two refusals.
use crate::command::Command;
use crate::inspection::inspect;
use crate::reader::Reader;
use crate::refusal::Refusal;
use std::test::Fail;

#[test]
fn commands_of_one_byte(rt: HostRuntime) {
    let script = [0x03, 0x02, 0x04, 0x05, 0x07];
    let mut reader = Reader::new(&script);
    assert!(rt; matches!(reader.next_command(), Ok(Some(Command::Begin))));
    assert!(rt; matches!(reader.next_command(), Ok(Some(Command::Mark))));
    assert!(rt; matches!(reader.next_command(), Ok(Some(Command::Stop))));
    assert!(rt; matches!(reader.next_command(), Ok(Some(Command::Replay))));
    assert!(rt; matches!(reader.next_command(), Ok(Some(Command::Survey))));
    assert!(rt; matches!(reader.next_command(), Ok(None)));
    assert_eq!(rt; reader.place(), 5);
}

#[test]
fn a_block_is_a_part_of_the_script(rt: HostRuntime) -> Result<(), Fail> {
    let mut script = [0xA5u8; 514];
    script[0] = 0x01;
    script[1] = 0x3C;
    script[513] = 0x02;
    let mut reader = Reader::new(&script);
    let Ok(Some(Command::Write(block))) = reader.next_command() else {
        return Err(Fail::new("no write"));
    };
    assert_eq!(rt; block[0], 0x3C);
    assert_eq!(rt; block[511], 0xA5);
    assert_eq!(rt; reader.place(), 513);
    assert!(rt; matches!(reader.next_command(), Ok(Some(Command::Mark))));
    Ok(())
}

#[test]
fn operands_have_their_high_byte_first(rt: HostRuntime) -> Result<(), Fail> {
    let script = [0x06, 0x02, 0x00, 0x01, 0x11, 0x70, 0x01, 0x02];
    let mut reader = Reader::new(&script);
    let Ok(
        Some(
            Command::Flaw {
                track,
                place,
                length,
            },
        ),
    ) = reader.next_command()
    else {
        return Err(Fail::new("no flaw"));
    };
    assert_eq!(rt; track, 2);
    assert_eq!(rt; place, 70_000);
    assert_eq!(rt; length, 258);
    assert_eq!(rt; reader.place(), 8);
    Ok(())
}

// The number of the refusal that ends a script, or 0 at its end.
fn ended_by(script: &[u8]) -> u8 {
    match inspect(script).refusal {
        Some(refusal) => refusal.number(),
        None => 0,
    }
}

#[test]
fn refusals_at_the_edges(rt: HostRuntime) {
    let mut short = [0u8; 512];
    short[0] = 0x01;
    assert_eq!(rt; ended_by(&short), 3);
    assert_eq!(rt; ended_by(&[0x06, 0, 0, 0, 0, 0, 1]), 3);
    assert_eq!(rt; ended_by(&[0x06, 0, 0, 0, 0, 0, 1, 0]), 0);
    assert_eq!(rt; ended_by(&[0x01]), 3);
    assert_eq!(rt; ended_by(&[0x02, 0x08]), 2);
    assert_eq!(rt; ended_by(&[0x00]), 2);
    assert_eq!(rt; ended_by(&[]), 0);
}

#[test]
fn a_refusal_leaves_the_reader_in_place(rt: HostRuntime) {
    let script = [0x03, 0x02, 0xFF, 0x04];
    let mut reader = Reader::new(&script);
    assert!(rt; matches!(reader.next_command(), Ok(Some(Command::Begin))));
    assert!(rt; matches!(reader.next_command(), Ok(Some(Command::Mark))));
    assert!(rt; matches!(reader.next_command(), Err(Refusal::UnknownCommand)));
    assert!(rt; matches!(reader.next_command(), Err(Refusal::UnknownCommand)));
    assert_eq!(rt; reader.place(), 2);
    let seen = inspect(&script);
    assert_eq!(rt; seen.commands, 2);
    assert_eq!(rt; seen.place, 2);
}
