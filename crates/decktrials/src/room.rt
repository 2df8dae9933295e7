// How much is recorded, and where a track or the tape ends.
use crate::act::Act;
use crate::trial::Trial;
use tape::Flaw;

// The first copy on an empty track has its marker at the place 15,000.
const SHORT: Flaw = Flaw {
    on: 0,
    place: 15_000,
    extent: 1,
};

fn with_room(rt: &HostRuntime, name: &str, tracks: u8, capacity: u32) -> anyhow::Result<()> {
    Trial {
        name,
        tracks,
        capacity,
        flaws: &[],
        laid: &[],
        recordings: &[&[Act::Marks(1), Act::Marks(1), Act::Marks(1)]],
    }
    .run(rt)
}

fn a_mark<'a>(rt: &HostRuntime, name: &'a str, flaws: &'a [Flaw]) -> anyhow::Result<()> {
    Trial {
        name,
        tracks: 1,
        capacity: 480_000,
        flaws,
        laid: &[],
        recordings: &[&[Act::Marks(1)]],
    }
    .run(rt)
}

fn full_tape(rt: &HostRuntime) -> anyhow::Result<()> {
    Trial {
        name: "nine tracks of three items",
        tracks: 9,
        capacity: 310_000,
        flaws: &[],
        laid: &[],
        recordings: &[
            &[Act::Marks(27), Act::Marks(1), Act::Block(5)],
            &[Act::Marks(1)],
        ],
    }
    .run(rt)
}

pub(crate) fn trials(rt: &HostRuntime) -> anyhow::Result<()> {
    a_mark(rt, "a mark", &[])?;
    a_mark(rt, "a mark whose first copy is spoiled", &[SHORT])?;
    with_room(rt, "280,000 cells left after one item", 1, 300_195)?;
    with_room(rt, "279,999 cells left, on the last track", 1, 300_194)?;
    with_room(rt, "279,999 cells left, on an earlier track", 2, 300_194)?;
    with_room(rt, "room for one item", 1, 280_000)?;
    with_room(rt, "room for none", 9, 279_999)?;
    full_tape(rt)
}
