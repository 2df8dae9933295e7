// The odd tape as a cartridge.
ghost use Rattle.std.specs.Prelude.{◌≡◌, [], ◌∷◌};
ghost use Rattle.oddtape.specs.OddTapes.{odd_tape, odd_room, OddTakes};
ghost use Rattle.oddtape.specs.OddLaws.{odd_few, odd_small, odd_empty, odd_inside, odd_binary, odd_grows, odd_keeps};

use crate::odd::ones::Ones;
use crate::odd::{CAPACITY, OddTape};
use arrayvec::ArrayVec;
use tape::{Reading, Recording, Refusal, check_append, check_read};

impl OddTape {
    pub fn new() -> OddTape
        ensures cells { odd_tape result ≡ [] ∷ [] }
        ensures count { result.ones.passed ≡ 0 }
    {
        OddTape {
            cells: ArrayVec::new(),
            ones: Ones::none(),
        }
    }
}

impl Reading for OddTape {
    ghost cells = { odd_tape };

    ghost room = { odd_room };

    ghost takes = { OddTakes };

    ghost few = { odd_few };

    ghost small = { odd_small };

    ghost empty = { odd_empty };

    ghost inside = { odd_inside };

    ghost binary = { odd_binary };

    ghost grows = { odd_grows };

    ghost keeps = { odd_keeps };

    fn tracks(&self) -> u8 {
        1
    }

    fn length(&self, at: u8) -> Result<u32, Refusal> {
        if at != 0 {
            return Err(Refusal::NoTrack);
        }
        Ok(self.cells.len() as u32)
    }

    fn read(&self, at: u8, place: u32, out: &mut [u8]) -> Result<(), Refusal> {
        check_read(self.length(at)?, place, out.len())?;
        let place = place as usize;
        out.copy_from_slice(&self.cells.as_slice()[place..place + out.len()]);
        Ok(())
    }
}

impl Recording for OddTape {
    fn capacity(&self) -> u32 {
        CAPACITY as u32
    }

    fn append(&mut self, at: u8, sent: &[u8]) -> Result<(), Refusal> {
        let length = self.length(at)?;
        check_append(length, sent.len(), CAPACITY as u32)?;
        for byte in sent {
            let kept = self.ones.pass(*byte);
            self.cells.push(kept);
        }
        Ok(())
    }
}
