// Examples of the interval store, over memory that is not clean.
use interval::IntervalStore;
use std::test::Fail;
use tape::{Reading, Recording, Refusal};

#[test]
fn spells_long_gaps(rt: HostRuntime) -> Result<(), Fail> {
    let (mut store, made) = IntervalStore::new(vec![in rt.alloc(); 200; 600]?, 1, 600);
    assert_eq!(rt; made, Ok(()));
    let mut sent = [0; 302];
    sent[300] = 7;
    sent[301] = 1;
    assert_eq!(rt; store.append(0, &sent), Ok(()));
    let mut cells = [9; 3];
    assert_eq!(rt; store.read(0, 299, &mut cells), Ok(()));
    assert_eq!(rt; cells, [0, 1, 1]);
    assert_eq!(rt; store.read(0, 300, &mut cells), Err(Refusal::PastEnd));
    let memory = store.into_memory();
    assert!(rt; memory.len() == 600);
    assert!(rt; memory.as_slice().starts_with(&[255, 45, 0]));
    Ok(())
}

// Every seventh cell is a one. Marks stand four cells apart.
#[test]
fn reads_from_every_place(rt: HostRuntime) -> Result<(), Fail> {
    let (mut store, made) = IntervalStore::new(vec![in rt.alloc(); 255; 4000]?, 2, 2000);
    assert_eq!(rt; made, Ok(()));
    for i in 0..2000u32 {
        assert_eq!(rt; store.append(1, &[u8::from(i % 7 == 6)]), Ok(()));
    }
    assert_eq!(rt; store.append(1, &[1]), Err(Refusal::TrackFull));
    for place in 0..1990u32 {
        let mut cells = [9; 10];
        assert_eq!(rt; store.read(1, place, &mut cells), Ok(()));
        for (i, cell) in (place..).zip(&cells) {
            assert_eq!(rt; *cell, u8::from(i % 7 == 6));
        }
    }
    assert_eq!(rt; store.length(0), Ok(0));
    Ok(())
}

#[test]
fn refuses_what_cannot_be(rt: HostRuntime) -> Result<(), Fail> {
    let (store, made) = IntervalStore::new(vec![in rt.alloc(); 3; 8]?, 9, 1);
    assert_eq!(rt; made, Err(Refusal::BadStore));
    assert_eq!(rt; store.tracks(), 0);
    assert_eq!(rt; store.capacity(), 0);
    assert_eq!(rt; store.length(0), Err(Refusal::NoTrack));
    assert!(rt; store.into_memory().len() == 8);
    let (mut store, made) = IntervalStore::new(vec![in rt.alloc(); 3; 9]?, 9, 1);
    assert_eq!(rt; made, Ok(()));
    assert_eq!(rt; store.append(8, &[5]), Ok(()));
    assert_eq!(rt; store.append(8, &[0]), Err(Refusal::TrackFull));
    assert_eq!(rt; store.append(9, &[]), Err(Refusal::NoTrack));
    assert_eq!(rt; store.length(8), Ok(1));
    Ok(())
}
