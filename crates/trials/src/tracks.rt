// A track as a whole: its cells, and their hash.
use packed::PackedStore;
use sampling::{cells_of, hash_of, hash_of_track};
use std::test::Fail;
use tape::{Reading, Recording};

// More cells than are hashed at a time. The hash was reckoned by other software.
#[test]
fn hashes_a_track_part_by_part(rt: HostRuntime) -> Result<(), Fail> {
    const HASH: u64 = 0x9E9D_D5E6_0A06_659A;
    let (mut store, _) = PackedStore::new(vec![in rt.alloc(); 0xA5u8; 2_050]?, 2, 8_200);
    let mut sent = [1; 8_200];
    sent[8_199] = 0;
    assert_eq!(rt; store.append(1, &sent), Ok(()));
    let cells = cells_of(&store, 1, rt.alloc())?;
    assert!(rt; cells.as_slice() == sent.as_slice());
    assert_eq!(rt; hash_of(cells.as_slice()), HASH);
    assert_eq!(rt; hash_of_track(&store, 1), HASH);
    // of no cells
    assert_eq!(rt; hash_of_track(&store, 0), 0xCBF2_9CE4_8422_2325);
    assert_eq!(rt; cells_of(&store, 2, rt.alloc())?.len(), 0);
    Ok(())
}
