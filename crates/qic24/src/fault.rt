// Why the cells after an opening are no sound copy, layer by layer.
ghost use Rattle.std.specs.Prelude.{◌≡◌, Some};
ghost use Rattle.qic24.specs.Texts.{fault_text, group_text};
ghost use Rattle.qic24.specs.declared.fault.CopyFault.TheVariants.{Group};

use std::error::Error;
use std::fmt;

// A group of ten cells that is no code where it stands.
#[derive(Clone, Copy, PartialEq, Eq, Debug)]
pub struct GroupFault {
    // which of the 518 groups, from 0
    pub index: u16,
    // its ten cells as a number, the first one highest
    pub cells: u16,
}

// The first cause that applies to a copy, in this order.
#[derive(Clone, Copy, PartialEq, Eq, Debug)]
pub enum CopyFault {
    // the track ends inside it
    TrackEnds,
    // a group is no code; the mark byte is one in the data only
    Group(GroupFault),
    // the data holds mark bytes and others
    Mixed,
    // the CRC is wrong
    Check,
    // the address names another track, this one
    OtherTrack(u8),
    // the control nibble is this, and not 0
    Control(u8),
    // the number is 0
    NumberZero,
}

// By hand, since clauses name the variant that `?` makes.
impl From<GroupFault> for CopyFault {
    ghost from_gives = { λ f r. r ≡ Group f };

    fn from(fault: GroupFault) -> CopyFault {
        CopyFault::Group(fault)
    }
}

impl fmt::Display for GroupFault {
    ghost output = { λ f. Some (group_text f) };

    fn fmt<W: fmt::Write>(&self, f: &mut fmt::Formatter<W>) -> fmt::Result {
        write!(f, "group {} {}", self.index, self.cells)
    }
}

impl fmt::Display for CopyFault {
    ghost output = { λ f. Some (fault_text f) };

    fn fmt<W: fmt::Write>(&self, f: &mut fmt::Formatter<W>) -> fmt::Result {
        match self {
            CopyFault::TrackEnds => f.write_str("track ends"),
            CopyFault::Group(group) => write!(f, "{group}"),
            CopyFault::Mixed => f.write_str("mixed"),
            CopyFault::Check => f.write_str("check"),
            CopyFault::OtherTrack(track) => write!(f, "other track {track}"),
            CopyFault::Control(nibble) => write!(f, "control {nibble}"),
            CopyFault::NumberZero => f.write_str("number zero"),
        }
    }
}

impl Error for GroupFault {}

impl Error for CopyFault {}
