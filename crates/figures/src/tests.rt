// The format on examples.
use qic24::{BODY, Content, CopyFault, Item, LONGEST, Preamble, crc, decode, encode, find_opening};
use std::test::Fail;

#[test]
fn check_of_the_nine_digits(rt: HostRuntime) {
    assert_eq!(rt; crc(b"123456789"), 0x29B1);
    assert_eq!(rt; crc(b""), 0xFFFF);
}

fn item(number: u32, content: Content) -> Result<Item, Fail> {
    Item::new(number, content).ok_or_else(|| Fail::new("a number that fits"))
}

// How many cells the copy of a mark has.
fn copy_length(preamble: Preamble) -> Result<usize, Fail> {
    let mark = item(7, Content::Mark)?;
    let mut cells = [0; LONGEST];
    Ok(encode(preamble, 3, &mark, &mut cells))
}

#[test]
fn lengths_of_copies(rt: HostRuntime) -> Result<(), Fail> {
    assert_eq!(rt; copy_length(Preamble::Long)?, 20_195);
    assert_eq!(rt; copy_length(Preamble::Elongated)?, 8_695);
    assert_eq!(rt; copy_length(Preamble::Normal)?, 5_315);
    Ok(())
}

#[test]
fn a_block_comes_back(rt: HostRuntime) -> Result<(), Fail> {
    let mut block = [0xFF; 512];
    block[0] = 0x3C;
    let item = item(70_000, Content::Block(block))?;
    let mut cells = [9; LONGEST];
    let end = encode(Preamble::Normal, 2, &item, &mut cells);
    assert_eq!(rt; end, 5_315);
    assert_eq!(rt; cells[5_315], 9);
    assert_eq!(rt; find_opening(&cells[0..5_315], 0), Some(130));
    assert_eq!(rt; find_opening(&cells[0..5_315], 131), None);
    let body = &cells[130..130 + BODY];
    let Ok(back) = decode(2, body) else {
        return Err(Fail::new("not read back"));
    };
    assert_eq!(rt; back.number(), 70_000);
    let Content::Block(bytes) = back.content() else {
        return Err(Fail::new("a mark"));
    };
    assert_eq!(rt; bytes[0], 0x3C);
    assert_eq!(rt; bytes[511], 0xFF);
    assert_eq!(rt; decode(3, body), Err(CopyFault::OtherTrack(2)));
    Ok(())
}

#[test]
fn faults_at_the_edges(rt: HostRuntime) -> Result<(), Fail> {
    assert_eq!(rt; decode(0, &[1; 5_179]), Err(CopyFault::TrackEnds));
    let Err(CopyFault::Group(fault)) = decode(0, &[1; 5_180]) else {
        return Err(Fail::new("no group fault"));
    };
    assert_eq!(rt; fault.index, 0);
    assert_eq!(rt; fault.cells, 1023);
    assert!(rt; Item::new(0, Content::Mark).is_none());
    assert!(rt; Item::new(1_048_575, Content::Mark).is_some());
    assert!(rt; Item::new(1_048_576, Content::Mark).is_none());
    Ok(())
}
