// Why the stand-in declines a command: the deck's reasons and numbers, and those of the flaw sheet.
use std::fmt;

#[derive(Clone, Copy)]
pub(crate) enum Refusal {
    MediaEnd,
    NumbersUsedUp,
    NotRecording,
    StillRecording,
    Sheet(tape::Refusal),
}

impl From<tape::Refusal> for Refusal {
    fn from(refusal: tape::Refusal) -> Refusal {
        Refusal::Sheet(refusal)
    }
}

impl fmt::Display for Refusal {
    fn fmt<W: fmt::Write>(&self, f: &mut fmt::Formatter<W>) -> fmt::Result {
        match self {
            Refusal::MediaEnd => f.write_str("12"),
            Refusal::NumbersUsedUp => f.write_str("13"),
            Refusal::NotRecording => f.write_str("15"),
            Refusal::StillRecording => f.write_str("16"),
            Refusal::Sheet(refusal) => write!(f, "{refusal}"),
        }
    }
}
