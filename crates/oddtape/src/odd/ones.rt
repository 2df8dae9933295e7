// The ones that pass, of which every third is dropped.
ghost use Rattle.std.specs.Prelude.{◌≡◌, ◌<◌};
ghost use Rattle.tape.specs.Tape.{cell};
ghost use Rattle.oddtape.specs.Odd.{kept, next};

// How many have passed since the last that was dropped.
#[derive(Clone, Copy)]
pub(crate) struct Ones {
    pub(crate) passed: u8,
    ghost third: { passed < 3 },
}

impl Ones {
    pub(crate) fn none() -> Ones
        ensures { result.passed ≡ 0 }
    {
        Ones { passed: 0 }
    }

    // What a cell comes out as.
    pub(crate) fn pass(&mut self, byte: u8) -> u8
        ensures kept { result ≡ kept self.old.passed (cell byte) }
        ensures next { self.new.passed ≡ next self.old.passed (cell byte) }
    {
        if byte == 0 {
            0
        } else if self.passed == 2 {
            self.passed = 0;
            0
        } else {
            self.passed += 1;
            1
        }
    }
}
