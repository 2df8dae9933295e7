// Where a replay goes on.
use crate::place::TapePlace;

// The number expected next, and the place from which it is sought.
#[derive(Clone, Copy, PartialEq, Eq, Debug)]
pub struct ReplayCursor {
    pub expected: u32,
    pub from: TapePlace,
}

impl ReplayCursor {
    ghost use Rattle.std.specs.Prelude.{◌≡◌};
    ghost use Rattle.replay.specs.Seeking.{rewound_cursor};

    // Number 1, at the start of track 0.
    pub fn rewound() -> ReplayCursor
        ensures { result ≡ rewound_cursor }
    {
        ReplayCursor {
            expected: 1,
            from: TapePlace { on: 0, at: 0 },
        }
    }
}
