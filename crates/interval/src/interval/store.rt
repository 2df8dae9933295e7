// An interval store as a cartridge.
ghost use Rattle.std.specs.Prelude.{◌≡◌, ◌+◌, ◌*◌, ◌/◌, ◌<◌, ◌≤◌, [], ◌++◌, map, length, take, drop, if◌then◌else◌, Ok, Err, vec_len, MatchResult, OnOk};
ghost use Rattle.std.specs.List.{flat_map};
ghost use Rattle.tape.specs.Calls.{append_answer};
ghost use Rattle.tape.specs.Promises.{ReadsBack};
ghost use Rattle.tape.specs.Tape.{track, blank, cell, run};
ghost use Rattle.tape.specs.declared.refusal.Refusal.TheVariants.{BadStore};
ghost use Rattle.tape.proofs.Tapes.{unspoiled_longer};
ghost use Rattle.interval.specs.Intervals.{gap, state_of};
ghost use Rattle.interval.specs.Marks.{mark_stride};
ghost use Rattle.interval.specs.IntervalStores.{interval_fits, interval_store_tape, interval_store_room, interval_store_takes};
ghost use Rattle.interval.specs.IntervalLaws.{interval_few, interval_empty, interval_inside, interval_binary};

use crate::interval::IntervalStore;
use crate::interval::adding::add_cells;
use crate::interval::copying::copy_cells;
use crate::interval::index::{Index, mark_ahead, mark_behind, to_next_mark};
use crate::interval::track::{Fill, TrackState, ZEROS_ALONE};
use tape::{MOST_TRACKS, Reading, Recording, Refusal, Sizes, check_append, check_read, track_row};

impl IntervalStore {
    // A blank store over the memory handed over, whatever that holds.
    // A refused one is handed out too, by a rule of the project: a cartridge with no tracks and no capacity.
    pub fn new(memory: Vec<u8>, tracks: u8, capacity: u32) -> (IntervalStore, Result<(), Refusal>)
        ensures answer { result.1 ≡ (if interval_fits tracks capacity (vec_len memory) then Ok tt else Err BadStore) }
        ensures cells { interval_store_tape result.0 ≡ (if interval_fits tracks capacity (vec_len memory) then blank tracks else []) }
        ensures room { interval_store_room result.0 ≡ (if interval_fits tracks capacity (vec_len memory) then capacity else 0) }
        ensures bytes { result.0.memory ≡ memory }
        ensures back { ReadsBack interval_store_tape interval_store_takes }
    {
        let (sizes, answer) = Sizes::for_store(tracks, capacity, capacity, memory.len());
        let store = IntervalStore {
            memory,
            sizes,
            states: [TrackState::none(); MOST_TRACKS],
            index: Index::new(),
        };
        (store, answer)
    }

    // Hands the memory back.
    pub fn into_memory(self) -> Vec<u8>
        ensures { result ≡ self.memory }
    {
        let IntervalStore { memory, .. } = self;
        memory
    }

    // Where a track stands. That the store has the track is a fact of two values, so each contract states it.
    fn state(&self, at: u8) -> TrackState
        requires { at < self.now.sizes.tracks }
        ensures { result ≡ state_of self.now.states at }
    {
        self.states[usize::from(at)]
    }

    // The bytes in use on a track.
    fn bytes(&self, at: u8) -> &[u8]
        requires { at < self.now.sizes.tracks }
        ensures bytes { result.now ≡ take (state_of self.now.states at).fill.used (drop (at * self.now.sizes.capacity) self.now.memory.items) }
        ensures long { length result.now ≡ (state_of self.now.states at).fill.used }
    {
        let used = self.state(at).fill.used;
        &self.memory[track_row(at, self.sizes.capacity)][..used]
    }

    // Adds cells to a track that has room for them, at most up to its next mark.
    fn put_part(&mut self, at: u8, sent: &[u8])
        requires there { at < self.old.sizes.tracks }
        requires fits { (state_of self.old.states at).cells + length sent.now ≤ self.old.sizes.capacity }
        requires step { (state_of self.old.states at).cells + length sent.now ≤ (state_of self.old.states at).cells / mark_stride self.old.sizes.capacity * mark_stride self.old.sizes.capacity + mark_stride self.old.sizes.capacity }
        ensures takes { interval_store_takes self.old (run at (map cell sent.now)) self.new }
        ensures longer { (state_of self.new.states at).cells ≡ (state_of self.old.states at).cells + length sent.now }
        ensures sizes { self.new.sizes ≡ self.old.sizes }
    {
        let TrackState { cells, fill } = self.state(at);
        let row = track_row(at, self.sizes.capacity);
        let fill = add_cells(&mut self.memory[row], fill, sent);
        let cells = cells + sent.len() as u32;
        let mark = mark_ahead(at, cells as usize, self.sizes.capacity);
        self.states[usize::from(at)] = TrackState { cells, fill };
        self.index.note(mark, fill);
    }

    // Adds cells to a track that has room for them.
    fn put(&mut self, at: u8, sent: &[u8])
        requires there { at < self.old.sizes.tracks }
        requires fits { (state_of self.old.states at).cells + length sent.now ≤ self.old.sizes.capacity }
        ensures { interval_store_takes self.old (run at (map cell sent.now)) self.new }
    {
        let mut left = sent;
        while !left.is_empty() {
            let cells = self.state(at).cells as usize;
            let n = to_next_mark(cells, self.sizes.capacity).min(left.len());
            let (part, rest) = left.split_at(n);
            self.put_part(at, part);
            left = rest;
        }
    }

    // Where to start for a place: how many bytes to leave out, and the cells that they stand for.
    fn start(&self, at: u8, place: usize) -> (usize, usize)
        requires there { at < self.now.sizes.tracks }
        requires inside { place ≤ (state_of self.now.states at).cells }
        ensures used { result.0 ≤ (state_of self.now.states at).fill.used }
        ensures begins { result.1 ≡ length (flat_map gap (take result.0 (drop (at * self.now.sizes.capacity) self.now.memory.items))) }
        ensures before { result.1 ≤ place }
        ensures near { place < result.1 + mark_stride self.now.sizes.capacity + ZEROS_ALONE }
    {
        let (mark, cells) = mark_behind(at, place, self.sizes.capacity);
        let Fill { used, zeros } = self.index.noted(mark);
        (used, cells - zeros)
    }
}

impl Reading for IntervalStore {
    ghost cells = { interval_store_tape };

    ghost room = { interval_store_room };

    ghost takes = { interval_store_takes };

    ghost few = { interval_few };

    ghost small = { λ s. s.sizes.small };

    ghost empty = { interval_empty };

    ghost inside = { interval_inside };

    ghost binary = { interval_binary };

    ghost grows = { λ s r e k. unspoiled_longer r (interval_store_tape s) (interval_store_tape e) k.0 };

    ghost keeps = { λ s r e k. k.1 };

    fn tracks(&self) -> u8 {
        self.sizes.tracks
    }

    fn length(&self, at: u8) -> Result<u32, Refusal> {
        if at >= self.sizes.tracks {
            return Err(Refusal::NoTrack);
        }
        Ok(self.state(at).cells)
    }

    fn read(&self, at: u8, place: u32, out: &mut [u8]) -> Result<(), Refusal> {
        check_read(self.length(at)?, place, out.len())?;
        let place = place as usize;
        let (from, cells) = self.start(at, place);
        copy_cells(&self.bytes(at)[from..], place - cells, out);
        Ok(())
    }
}

impl Recording for IntervalStore {
    fn capacity(&self) -> u32 {
        self.sizes.capacity
    }

    fn append(&mut self, at: u8, sent: &[u8]) -> Result<(), Refusal>
        ensures answer { result ≡ append_answer (interval_store_tape self.old) (interval_store_room self.old) at (length sent.now) }
        ensures tape { MatchResult result (λ _. interval_store_takes self.old (run at (map cell sent.now)) self.new) (λ _. self.new ≡ self.old) }
        ensures unspoiled { OnOk result (track (interval_store_tape self.new) at ≡ track (interval_store_tape self.old) at ++ map cell sent.now) }
    {
        check_append(self.length(at)?, sent.len(), self.sizes.capacity)?;
        self.put(at, sent);
        Ok(())
    }
}
