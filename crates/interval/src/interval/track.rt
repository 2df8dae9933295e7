// Where a track of an interval store stands.
ghost use Rattle.std.specs.Prelude.{◌≡◌, ◌<◌};
ghost use Rattle.interval.specs.declared.interval.track.TheConstants.{ZEROS_ALONE};

// This byte is so many zeros with no one after them; a smaller one is that many zeros and then a one.
pub const ZEROS_ALONE: u8 = 255;

// The bytes in use, and the zeros after them: too few for another byte.
#[derive(Clone, Copy)]
pub struct Fill {
    pub used: usize,
    pub zeros: usize,
    ghost short: { zeros < ZEROS_ALONE },
}

impl Fill {
    ghost use Rattle.interval.specs.Intervals.{no_fill};

    pub(crate) fn none() -> Fill
        ensures { result ≡ no_fill }
    {
        Fill { used: 0, zeros: 0 }
    }
}

// A track with so many cells.
#[derive(Clone, Copy)]
pub struct TrackState {
    pub cells: u32,
    pub fill: Fill,
}

impl TrackState {
    ghost use Rattle.interval.specs.Intervals.{no_track};

    // Without cells.
    pub(crate) fn none() -> TrackState
        ensures { result ≡ no_track }
    {
        TrackState {
            cells: 0,
            fill: Fill::none(),
        }
    }
}
