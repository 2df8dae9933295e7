// The lengths of a copy's parts.
ghost use Rattle.std.specs.Prelude.{◌≡◌};
ghost use Rattle.qic24.specs.Copy.{preamble_ones};

// The bytes of the data.
pub(crate) const DATA: usize = 512;

// The cells of the data, ten to a byte.
pub(crate) const DATA_CELLS: usize = DATA * 10;

// The bytes that the CRC is over: data and address.
pub(crate) const CHECKED: usize = DATA + 4;

// The groups of ten cells of data, address and CRC.
pub(crate) const GROUPS: usize = CHECKED + 2;

// Their cells, which follow an opening.
pub const BODY: usize = GROUPS * 10;

// The cells of the longest copy, which a long preamble begins.
pub const LONGEST: usize = 20_195;

pub(crate) const POSTAMBLE: usize = 5;

// The run of ones before a copy's marker.
#[derive(Clone, Copy, PartialEq, Eq, Debug)]
pub enum Preamble {
    // between two copies of a recording
    Normal,
    // before the first copy of a recording on a track that has cells
    Elongated,
    // before the first copy on an empty track
    Long,
}

impl Preamble {
    pub fn ones(self) -> usize
        ensures { result ≡ preamble_ones self }
    {
        match self {
            Preamble::Normal => 120,
            Preamble::Elongated => 3_500,
            Preamble::Long => 15_000,
        }
    }
}
