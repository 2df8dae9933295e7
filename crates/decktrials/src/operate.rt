// A deck that is operated: its recordings, its replay, and the cells that they leave.
use crate::act::{Act, perform};
use crate::show::{show_number, show_refusal};
use deck::{Next, Refusal};
use operator::Operator;
use sampling::{EMPTY, hash_of_track, hash_on};
use tape::{Reading, Recording, track_length};

// One recording, from begin to stop.
pub(crate) fn record<C: Recording>(
    log: &mut String,
    operator: &mut Operator<C>,
    acts: &[Act],
) -> anyhow::Result<()> {
    match operator.begin() {
        Err(refusal) => show_refusal(log, refusal),
        Ok(number) => {
            writeln!(log, "begin {number}")?;
            for act in acts {
                perform(log, operator, *act)?;
            }
            show_number(log, "stop", operator.stop())
        }
    }
}

// What a replay has handed out: how many blocks and marks, and a hash of the blocks.
#[derive(Clone, Copy)]
struct Replayed {
    blocks: u32,
    marks: u32,
    hash: u64,
}

impl Replayed {
    fn add_block(&mut self, block: &[u8]) {
        self.blocks = self.blocks.saturating_add(1);
        self.hash = hash_on(self.hash, block);
    }

    fn add_mark(&mut self) {
        self.marks = self.marks.saturating_add(1);
    }

    // All that is left of the replay; whether a number was passed over at its end.
    fn add_rest<C: Reading>(&mut self, operator: &mut Operator<C>) -> Result<bool, Refusal> {
        let mut block = [0; 512];
        loop {
            match operator.next(&mut block)? {
                Next::Block { .. } => self.add_block(&block),
                Next::Mark { .. } => self.add_mark(),
                Next::End { passed } => return Ok(passed),
            }
        }
    }
}

pub(crate) fn replay<C: Reading>(
    log: &mut String,
    operator: &mut Operator<C>,
) -> anyhow::Result<()> {
    let mut replayed = Replayed {
        blocks: 0,
        marks: 0,
        hash: EMPTY,
    };
    let end = replayed.add_rest(operator);
    let Replayed {
        blocks,
        marks,
        hash,
    } = replayed;
    writeln!(log, "replay {blocks} blocks {hash:016x}, {marks} marks")?;
    match end {
        Ok(true) => writeln!(log, "end, one passed")?,
        Ok(false) => writeln!(log, "end")?,
        Err(refusal) => show_refusal(log, refusal)?,
    }
    Ok(())
}

pub(crate) fn show_cells<C: Reading>(log: &mut String, cartridge: &C) -> anyhow::Result<()> {
    for track in 0..cartridge.tracks() {
        let length = track_length(cartridge, track);
        let hash = hash_of_track(cartridge, track);
        writeln!(log, "track {track}: {length} cells {hash:016x}")?;
    }
    Ok(())
}
