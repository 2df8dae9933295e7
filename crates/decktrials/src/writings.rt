// An item that comes out good at its first, fifteenth or sixteenth writing, or never.
use crate::act::Act;
use crate::trial::Trial;
use tape::Flaw;

// A flaw from the marker of the first copy on an empty track.
fn from_the_first(extent: u32) -> [Flaw; 1] {
    [Flaw {
        on: 0,
        place: 15_000,
        extent,
    }]
}

// The extents that end in the marker of the 14th, the 15th and the 16th writing: an item that is written again alone,
const ALONE: [(&str, u32); 3] = [
    ("good at the fifteenth writing", 69_096),
    ("good at the sixteenth writing", 74_411),
    ("never good", 79_726),
];

// and one that is written in turn with the next.
const IN_TURN: [(&str, u32); 3] = [
    ("good at the fifteenth writing", 138_191),
    ("good at the sixteenth writing", 148_821),
    ("never good", 159_451),
];

fn in_stop<'a>(rt: &HostRuntime, name: &'a str, flaws: &'a [Flaw]) -> anyhow::Result<()> {
    println!(rt; "in stop")?;
    Trial {
        name,
        tracks: 1,
        capacity: 480_000,
        flaws,
        laid: &[],
        recordings: &[&[Act::Block(0x3C)], &[Act::Marks(1)]],
    }
    .run(rt)
}

fn at_a_change<'a>(rt: &HostRuntime, name: &'a str, flaws: &'a [Flaw]) -> anyhow::Result<()> {
    println!(rt; "at a change of track")?;
    Trial {
        name,
        tracks: 3,
        capacity: 300_000,
        flaws,
        laid: &[],
        recordings: &[
            &[Act::Block(0x3C), Act::Marks(1), Act::Marks(1)],
            &[Act::Marks(1)],
        ],
    }
    .run(rt)
}

fn in_write<'a>(rt: &HostRuntime, name: &'a str, flaws: &'a [Flaw]) -> anyhow::Result<()> {
    println!(rt; "in write")?;
    Trial {
        name,
        tracks: 1,
        capacity: 700_000,
        flaws,
        laid: &[],
        recordings: &[
            &[
                Act::Block(0x3C),
                Act::Block(7),
                Act::Marks(1),
                Act::Block(9),
            ],
            &[Act::Marks(1)],
        ],
    }
    .run(rt)
}

// The third of a recording is spoiled in all its writings: the first two are kept.
fn third(rt: &HostRuntime) -> anyhow::Result<()> {
    Trial {
        name: "the third item never good",
        tracks: 1,
        capacity: 700_000,
        flaws: &[Flaw {
            on: 0,
            place: 25_630,
            extent: 159_451,
        }],
        laid: &[],
        recordings: &[
            &[Act::Marks(3), Act::Block(1), Act::Marks(1), Act::Short],
            &[Act::Block(2)],
        ],
    }
    .run(rt)
}

pub(crate) fn trials(rt: &HostRuntime) -> anyhow::Result<()> {
    in_stop(rt, "good at the first writing", &[])?;
    at_a_change(rt, "good at the first writing", &[])?;
    in_write(rt, "good at the first writing", &[])?;
    for (name, extent) in &ALONE {
        in_stop(rt, name, &from_the_first(*extent))?;
        at_a_change(rt, name, &from_the_first(*extent))?;
    }
    for (name, extent) in &IN_TURN {
        in_write(rt, name, &from_the_first(*extent))?;
    }
    third(rt)
}
