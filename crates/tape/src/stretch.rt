// The one search for the stretch that holds a number, for every kind of stretch.
ghost use Rattle.std.specs.Prelude.{◌≡◌, ℕ};
ghost use Rattle.tape.specs.Stretches.{Answers};

// Anything with a first number and a length.
pub trait Stretch {
    ghost first: { Self → ℕ };

    ghost extent: { Self → ℕ };

    fn first(&self) -> u64
        ensures { result ≡ first self.now };

    fn extent(&self) -> u64
        ensures { result ≡ extent self.now };
}

// The index of the first stretch that holds the number; none if a stretch before that one begins beyond the number.
pub fn stretch_holding<S: Stretch>(stretches: &[S], number: u64) -> Option<usize>
    ensures { Answers S.Stretch.first S.Stretch.extent stretches.now number result }
{
    for (i, stretch) in stretches.iter().enumerate() {
        let into = number.checked_sub(stretch.first())?;
        if into < stretch.extent() {
            return Some(i);
        }
    }
    None
}
