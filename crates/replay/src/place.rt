// Places on a tape.

// A track, and a cell of it counted from 0.
#[derive(Clone, Copy, PartialEq, Eq, Debug)]
pub struct TapePlace {
    pub on: u8,
    pub at: u32,
}
