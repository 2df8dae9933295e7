// Examples of the flaw sheet.
use oddtape::OddTape;
use packed::PackedStore;
use std::test::Fail;
use tape::{Flaw, FlawSheet, Reading, Recording, Refusal};

fn flaw(on: u8, place: u32, extent: u32) -> Flaw {
    Flaw { on, place, extent }
}

// A sheet over a sheet: each sends a zero under its own flaws.
#[test]
fn flaws_send_zeros(rt: HostRuntime) -> Result<(), Fail> {
    let (store, _) = PackedStore::new(vec![in rt.alloc(); 0u8; 4]?, 2, 10);
    let mut inner = FlawSheet::new(store);
    assert_eq!(rt; inner.enter(flaw(1, 9, 1)), Ok(()));
    let mut sheet = FlawSheet::new(inner);
    assert_eq!(rt; sheet.enter(flaw(2, 0, 1)), Err(Refusal::FlawOutside));
    assert_eq!(rt; sheet.enter(flaw(0, 9, 2)), Err(Refusal::FlawOutside));
    assert_eq!(rt; sheet.enter(flaw(0, 0, 0)), Err(Refusal::FlawOutside));
    assert_eq!(rt; sheet.enter(flaw(0, 9, 1)), Ok(()));
    assert_eq!(rt; sheet.enter(flaw(1, 0, 2)), Ok(()));
    assert_eq!(rt; sheet.enter(flaw(1, 1, 1)), Err(Refusal::FlawTooEarly));
    assert_eq!(rt; sheet.enter(flaw(1, 2, 1)), Ok(()));
    assert_eq!(rt; sheet.append(1, &[1]), Ok(()));
    assert_eq!(rt; sheet.append(1, &[1, 1, 1, 0, 1, 1, 1, 1, 1]), Ok(()));
    let mut out = [9u8; 10];
    assert_eq!(rt; sheet.read(1, 0, &mut out), Ok(()));
    assert_eq!(rt; out, [0, 0, 0, 1, 0, 1, 1, 1, 1, 0]);
    Ok(())
}

#[test]
fn holds_64_flaws(rt: HostRuntime) -> Result<(), Fail> {
    let (store, _) = PackedStore::new(vec![in rt.alloc(); 0u8; 20]?, 1, 160);
    let mut sheet = FlawSheet::new(store);
    for i in 0..64u32 {
        assert_eq!(rt; sheet.enter(flaw(0, 2 * i, 1)), Ok(()));
    }
    assert_eq!(rt; sheet.flaws().len(), 64);
    assert_eq!(rt; sheet.enter(flaw(9, 0, 0)), Err(Refusal::SheetFull));
    Ok(())
}

// Every third one is dropped, counted over both appends; the sheet's zero is no one.
#[test]
fn drops_every_third_one(rt: HostRuntime) {
    let mut sheet = FlawSheet::new(OddTape::new());
    assert_eq!(rt; sheet.enter(flaw(0, 1, 1)), Ok(()));
    assert_eq!(rt; sheet.append(0, &[1, 1, 1]), Ok(()));
    assert_eq!(rt; sheet.append(0, &[1, 0, 1, 1, 1]), Ok(()));
    let mut out = [9u8; 8];
    assert_eq!(rt; sheet.read(0, 0, &mut out), Ok(()));
    assert_eq!(rt; out, [1, 0, 1, 0, 0, 1, 1, 0]);
}
