// A trial: a cartridge, flaws, copies laid by hand, and recordings one after the other; run on every kind of cartridge.
use crate::act::Act;
use crate::operate::{record, replay, show_cells};
use interval::IntervalStore;
use operator::Operator;
use packed::PackedStore;
use qic24::{Content, Item, LONGEST, Preamble, encode};
use std::alloc::{AllocError, Global};
use tape::{Flaw, FlawSheet, Reading, Recording};

#[derive(Clone, Copy)]
pub(crate) struct Trial<'a> {
    pub(crate) name: &'a str,
    pub(crate) tracks: u8,
    pub(crate) capacity: u32,
    pub(crate) flaws: &'a [Flaw],
    // numbers of marks whose copies stand on the first track before
    pub(crate) laid: &'a [u32],
    pub(crate) recordings: &'a [&'a [Act]],
}

// Appends the copy of a mark to the first track.
fn lay<C: Recording>(cartridge: &mut C, number: u32) {
    if let Some(item) = Item::new(number, Content::Mark) {
        let mut cells = [0; LONGEST];
        let length = encode(Preamble::Normal, 0, &item, &mut cells);
        let _ = cartridge.append(0, &cells[0..length]);
    }
}

impl Trial<'_> {
    // The answers of an operator, and the cells of the cartridge. What was laid is replayed before and after.
    fn run_with<C: Recording>(
        &self,
        log: &mut String,
        operator: &mut Operator<C>,
    ) -> anyhow::Result<()> {
        if !self.laid.is_empty() {
            replay(log, operator)?;
        }
        for acts in self.recordings {
            record(log, operator, acts)?;
        }
        replay(log, operator)?;
        show_cells(log, operator.cartridge())
    }

    // All of it on one cartridge.
    fn run_on<C: Recording + Drop>(
        &self,
        heap: Global,
        mut cartridge: C,
    ) -> anyhow::Result<String> {
        for number in self.laid {
            lay(&mut cartridge, *number);
        }
        let mut log = String::new(heap);
        let mut operator = Operator::new(cartridge);
        let done = self.run_with(&mut log, &mut operator);
        let (_cartridge, _stopped) = operator.finish();
        done?;
        Ok(log)
    }

    fn sheet_over<C: Recording>(&self, cartridge: C) -> FlawSheet<C> {
        let mut sheet = FlawSheet::new(cartridge);
        for flaw in self.flaws {
            let _ = sheet.enter(*flaw);
        }
        sheet
    }

    // Memory that is not clean, with so many bytes for each track.
    fn memory(&self, heap: Global, track_bytes: u32) -> Result<Vec<u8>, AllocError> {
        vec![in heap; 0xA5u8; track_bytes as usize * self.tracks as usize]
    }

    fn packed(&self, heap: Global) -> Result<PackedStore, AllocError> {
        let memory = self.memory(heap, self.capacity.div_ceil(8))?;
        let (store, _) = PackedStore::new(memory, self.tracks, self.capacity);
        Ok(store)
    }

    fn interval(&self, heap: Global) -> Result<IntervalStore, AllocError> {
        let memory = self.memory(heap, self.capacity)?;
        let (store, _) = IntervalStore::new(memory, self.tracks, self.capacity);
        Ok(store)
    }

    // Prints what the packed store under a sheet answers, and whether the interval store answers otherwise, and each store without a sheet where there are no flaws.
    pub(crate) fn run(&self, rt: &HostRuntime) -> anyhow::Result<()> {
        let heap = rt.alloc();
        let log = self.run_on(heap, self.sheet_over(self.packed(heap)?))?;
        println!(rt; "{}", self.name)?;
        print!(rt; "{log}")?;
        let other = self.run_on(heap, self.sheet_over(self.interval(heap)?))?;
        compare(rt, &log, &other, "interval under a sheet")?;
        if self.flaws.is_empty() {
            compare(rt, &log, &self.run_on(heap, self.packed(heap)?)?, "packed")?;
            compare(
                rt,
                &log,
                &self.run_on(heap, self.interval(heap)?)?,
                "interval",
            )?;
        }
        Ok(())
    }
}

fn compare(rt: &HostRuntime, log: &str, other: &str, name: &str) -> anyhow::Result<()> {
    if log != other {
        println!(rt; "{name} differs")?;
    }
    Ok(())
}
