// Each item recorded once, on one track under a flaw sheet, and not checked: a stand-in for the deck.
use crate::refusal::Refusal;
use crate::replaying::print_items;
use packed::PackedStore;
use qic24::{Content, Item, LONGEST, Preamble, encode};
use sampling::cells_of;
use std::alloc::{AllocError, Global};
use tape::{Flaw, FlawSheet, Reading, Recording, track_length};

// The cells of the one track, and the bytes that hold them.
const CAPACITY: u32 = 480_000;

const BYTES: usize = 60_000;

// Fewer cells than these are the media's end.
const RESERVE: u32 = 280_000;

// The track that the address of every copy names.
pub(crate) const TRACK: u8 = 0;

#[derive(Drop)]
pub(crate) struct Recorder {
    sheet: FlawSheet<PackedStore>,
    // the number of the next item
    next: u32,
    // what begin answered, while a recording is open
    first: Option<u32>,
}

impl Recorder {
    pub(crate) fn new(heap: Global) -> Result<Self, AllocError> {
        let memory = vec![in heap; 0u8; BYTES]?;
        let (store, _) = PackedStore::new(memory, 1, CAPACITY);
        Ok(Recorder {
            sheet: FlawSheet::new(store),
            next: 1,
            first: None,
        })
    }

    pub(crate) fn begin(&mut self) -> Result<u32, Refusal> {
        if self.first.is_some() {
            return Err(Refusal::StillRecording);
        }
        self.first = Some(self.next);
        Ok(self.next)
    }

    pub(crate) fn write(&mut self, block: &[u8; 512]) -> Result<u32, Refusal> {
        self.record(Content::Block(*block))
    }

    pub(crate) fn mark(&mut self) -> Result<u32, Refusal> {
        self.record(Content::Mark)
    }

    // How many items the recording that is open kept.
    pub(crate) fn stop(&mut self) -> Result<u32, Refusal> {
        let first = self.first.take().ok_or(Refusal::NotRecording)?;
        Ok(self.next.saturating_sub(first))
    }

    pub(crate) fn enter_flaw(&mut self, flaw: Flaw) -> Result<(), Refusal> {
        self.sheet.enter(flaw)?;
        Ok(())
    }

    pub(crate) fn replay(&self, rt: &HostRuntime) -> anyhow::Result<()> {
        if self.first.is_some() {
            println!(rt; "refused {}", Refusal::StillRecording)?;
            return Ok(());
        }
        print_items(rt, cells_of(&self.sheet, TRACK, rt.alloc())?.as_slice())
    }

    // Appends the copy of an item under the next number, or says why not.
    fn record(&mut self, content: Content) -> Result<u32, Refusal> {
        let first = self.first.ok_or(Refusal::NotRecording)?;
        let item = Item::new(self.next, content).ok_or(Refusal::NumbersUsedUp)?;
        let length = track_length(&self.sheet, TRACK);
        if CAPACITY.saturating_sub(length) < RESERVE {
            return Err(Refusal::MediaEnd);
        }
        let preamble = if length == 0 {
            Preamble::Long
        } else if self.next == first {
            Preamble::Elongated
        } else {
            Preamble::Normal
        };
        let mut copy = [0; LONGEST];
        let size = encode(preamble, TRACK, &item, &mut copy);
        self.sheet.append(TRACK, &copy[..size])?;
        self.next = self.next.saturating_add(1);
        Ok(item.number())
    }
}
