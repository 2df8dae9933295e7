// A packed store as a cartridge.
ghost use Rattle.std.specs.Prelude.{◌≡◌, ◌+◌, ◌*◌, [], ◌++◌, map, length, if◌then◌else◌, Ok, Err, vec_len, MatchResult, OnOk};
ghost use Rattle.tape.specs.Calls.{append_answer};
ghost use Rattle.tape.specs.Tape.{track, blank, cell, run};
ghost use Rattle.tape.specs.Promises.{ReadsBack};
ghost use Rattle.tape.specs.Stores.{Stores};
ghost use Rattle.tape.specs.declared.refusal.Refusal.TheVariants.{BadStore};
ghost use Rattle.tape.proofs.Tapes.{unspoiled_longer};
ghost use Rattle.packed.specs.Packed.{packed_bytes};
ghost use Rattle.packed.specs.PackedStores.{packed_fits, packed_store_tape, packed_store_room};
ghost use Rattle.packed.specs.PackedLaws.{packed_few, packed_empty, packed_inside, packed_binary};

use crate::packed::PackedStore;
use crate::packed::bytes::{get, put};
use std::ops::Range;
use tape::{MOST_TRACKS, Reading, Recording, Refusal, Sizes, check_append, check_read, track_row};

// How many bytes a track has.
fn track_bytes(capacity: u32) -> u32
    ensures { result ≡ packed_bytes capacity }
{
    capacity.div_ceil(8)
}

impl PackedStore {
    // A blank store over the memory handed over, whatever that holds.
    // A refused one is handed out too, by a rule of the project: a cartridge with no tracks and no capacity.
    pub fn new(memory: Vec<u8>, tracks: u8, capacity: u32) -> (PackedStore, Result<(), Refusal>)
        ensures answer { result.1 ≡ (if packed_fits tracks capacity (vec_len memory) then Ok tt else Err BadStore) }
        ensures cells { packed_store_tape result.0 ≡ (if packed_fits tracks capacity (vec_len memory) then blank tracks else []) }
        ensures room { packed_store_room result.0 ≡ (if packed_fits tracks capacity (vec_len memory) then capacity else 0) }
        ensures bytes { result.0.memory ≡ memory }
        ensures back { ReadsBack packed_store_tape (Stores packed_store_tape packed_store_room) }
    {
        let bytes = track_bytes(capacity);
        let (sizes, answer) = Sizes::for_store(tracks, capacity, bytes, memory.len());
        let used = [0; MOST_TRACKS];
        let store = PackedStore {
            memory,
            sizes,
            used,
        };
        (store, answer)
    }

    // Hands the memory back.
    pub fn into_memory(self) -> Vec<u8>
        ensures { result ≡ self.memory }
    {
        let PackedStore { memory, .. } = self;
        memory
    }

    // Which bytes are those of a track.
    fn bytes(&self, at: u8) -> Range<usize>
        ensures start { result.start ≡ at * packed_bytes self.now.sizes.capacity }
        ensures end { result.end ≡ at * packed_bytes self.now.sizes.capacity + packed_bytes self.now.sizes.capacity }
    {
        track_row(at, track_bytes(self.sizes.capacity))
    }
}

impl Reading for PackedStore {
    ghost cells = { packed_store_tape };

    ghost room = { packed_store_room };

    ghost takes = { Stores packed_store_tape packed_store_room };

    ghost few = { packed_few };

    ghost small = { λ s. s.sizes.small };

    ghost empty = { packed_empty };

    ghost inside = { packed_inside };

    ghost binary = { packed_binary };

    ghost grows = { λ s r e k. unspoiled_longer r (packed_store_tape s) (packed_store_tape e) k.0 };

    ghost keeps = { λ s r e k. k.1 };

    fn tracks(&self) -> u8 {
        self.sizes.tracks
    }

    fn length(&self, at: u8) -> Result<u32, Refusal> {
        if at >= self.sizes.tracks {
            return Err(Refusal::NoTrack);
        }
        Ok(self.used[usize::from(at)])
    }

    fn read(&self, at: u8, place: u32, out: &mut [u8]) -> Result<(), Refusal> {
        check_read(self.length(at)?, place, out.len())?;
        get(&self.memory[self.bytes(at)], place as usize, out);
        Ok(())
    }
}

impl Recording for PackedStore {
    fn capacity(&self) -> u32 {
        self.sizes.capacity
    }

    fn append(&mut self, at: u8, sent: &[u8]) -> Result<(), Refusal>
        ensures answer { result ≡ append_answer (packed_store_tape self.old) (packed_store_room self.old) at (length sent.now) }
        ensures tape { MatchResult result (λ _. Stores packed_store_tape packed_store_room self.old (run at (map cell sent.now)) self.new) (λ _. self.new ≡ self.old) }
        ensures unspoiled { OnOk result (track (packed_store_tape self.new) at ≡ track (packed_store_tape self.old) at ++ map cell sent.now) }
    {
        let length = self.length(at)?;
        check_append(length, sent.len(), self.sizes.capacity)?;
        let bytes = self.bytes(at);
        put(&mut self.memory[bytes], length as usize, sent);
        self.used[usize::from(at)] = length + sent.len() as u32;
        Ok(())
    }
}
