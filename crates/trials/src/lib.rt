// Short trials of the cartridges, each with cells written out.

#![tactic(auto)]

#[cfg(test)]
mod flaws;
#[cfg(test)]
mod intervals;
#[cfg(test)]
mod tracks;

#[cfg(test)]
mod tests {
    use oddtape::OddTape;
    use packed::PackedStore;
    use std::test::Fail;
    use tape::{
        Reading, Recording, Refusal, Sizes, check_append, check_read, read_both, track_length,
    };

    // Memory that was used before: a blank store does not show it, and only the cells of the second track are written.
    #[test]
    fn packs_high_bit_first(rt: HostRuntime) -> Result<(), Fail> {
        let memory = vec![in rt.alloc(); 0xA5u8; 4]?;
        let (mut store, made) = PackedStore::new(memory, 2, 9);
        assert_eq!(rt; made, Ok(()));
        assert_eq!(rt; store.length(1), Ok(0));
        assert_eq!(rt; store.append(1, &[1, 0, 7, 1, 0, 0, 0, 1, 255]), Ok(()));
        assert_eq!(rt; store.append(1, &[]), Ok(()));
        assert_eq!(rt; store.append(1, &[0]), Err(Refusal::TrackFull));
        assert_eq!(rt; store.append(2, &[]), Err(Refusal::NoTrack));
        let memory = store.into_memory();
        assert_eq!(rt;
            memory.as_slice(),
            [0xA5, 0xA5, 0b1011_0001, 0b1010_0101].as_slice()
        );
        Ok(())
    }

    #[test]
    fn reads_within_the_end(rt: HostRuntime) -> Result<(), Fail> {
        let memory = vec![in rt.alloc(); 0xFFu8; 9]?;
        let (mut store, _) = PackedStore::new(memory, 9, 1);
        assert_eq!(rt; store.append(8, &[3]), Ok(()));
        let mut out = [9u8; 1];
        assert_eq!(rt; store.read(8, 0, &mut out), Ok(()));
        assert_eq!(rt; out, [1]);
        assert_eq!(rt; store.read(8, 1, &mut out), Err(Refusal::PastEnd));
        assert_eq!(rt; store.read(8, 2, &mut []), Err(Refusal::PastEnd));
        assert_eq!(rt; store.read(8, 1, &mut []), Ok(()));
        assert_eq!(rt; store.read(9, 0, &mut out), Err(Refusal::NoTrack));
        assert_eq!(rt; out, [1]);
        Ok(())
    }

    #[test]
    fn declines_sizes(rt: HostRuntime) -> Result<(), Fail> {
        let (store, made) = PackedStore::new(vec![in rt.alloc(); 0u8; 17]?, 9, 9);
        assert_eq!(rt; made, Err(Refusal::BadStore));
        assert_eq!(rt; store.tracks(), 0);
        assert_eq!(rt; store.capacity(), 0);
        assert_eq!(rt; store.length(0), Err(Refusal::NoTrack));
        let (_, enough) = PackedStore::new(vec![in rt.alloc(); 0u8; 18]?, 9, 9);
        assert_eq!(rt; enough, Ok(()));
        for (bytes, tracks, capacity) in [
            (18, 0, 9),
            (20, 10, 9),
            (18, 9, 0),
            (18, 1, 100_000_001),
        ] {
            let (_, made) = PackedStore::new(vec![in rt.alloc(); 0u8; bytes]?, tracks, capacity);
            assert_eq!(rt;
                made,
                Err(Refusal::BadStore),
                "{tracks} tracks of {capacity} cells"
            );
        }
        assert_eq!(rt; Refusal::BadStore.number(), 7);
        Ok(())
    }

    // What the stores share: 9 cells take two bytes of a packed track.
    #[test]
    fn shares_sizes_and_tests(rt: HostRuntime) -> Result<(), Fail> {
        assert_eq!(rt;
            Sizes::over(2, 9, 2, 4).map(|sizes| (sizes.tracks, sizes.capacity)),
            Ok((2, 9))
        );
        assert_eq!(rt; Sizes::over(2, 9, 2, 3), Err(Refusal::BadStore));
        assert_eq!(rt; Sizes::none().capacity, 0);
        assert_eq!(rt; check_read(4, 1, 3), Ok(()));
        assert_eq!(rt; check_read(4, 2, 3), Err(Refusal::PastEnd));
        assert_eq!(rt; check_append(4, 5, 9), Ok(()));
        assert_eq!(rt; check_append(4, 6, 9), Err(Refusal::TrackFull));
        let line = format!(in rt.alloc(); "refused {}", Refusal::SheetFull)?;
        assert_eq!(rt; line.as_str(), "refused 19");
        Ok(())
    }

    #[test]
    fn reads_two_kinds_alike(rt: HostRuntime) -> Result<(), Fail> {
        let (mut store, _) = PackedStore::new(vec![in rt.alloc(); 0u8; 1]?, 1, 8);
        let mut odd = OddTape::new();
        assert_eq!(rt; store.append(0, &[1, 0, 1, 0]), Ok(()));
        assert_eq!(rt; odd.append(0, &[1, 0, 1, 1]), Ok(()));
        assert_eq!(rt; track_length(&odd, 0), track_length(&store, 0));
        assert_eq!(rt; track_length(&odd, 1), 0);
        let mut one = [9u8; 3];
        let mut other = [8u8; 3];
        assert_eq!(rt;
            read_both(&store, &odd, 0, 1, &mut one, &mut other),
            (Ok(()), Ok(()))
        );
        assert_eq!(rt; one, other);
        assert_eq!(rt;
            read_both(&store, &odd, 0, 2, &mut one, &mut other),
            (Err(Refusal::PastEnd), Err(Refusal::PastEnd))
        );
        Ok(())
    }
}
