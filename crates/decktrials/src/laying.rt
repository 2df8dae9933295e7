// Tapes laid by hand, whose numbers no recording leaves.
use crate::act::Act;
use crate::trial::Trial;
use tape::Flaw;

// Ten cells of the data of the first copy and of the second: a group each, which is then no code.
const SPOILED: [Flaw; 2] = [
    Flaw {
        on: 0,
        place: 1_130,
        extent: 10,
    },
    Flaw {
        on: 0,
        place: 5_465,
        extent: 10,
    },
];

fn on_laid<'a>(
    rt: &HostRuntime,
    name: &'a str,
    laid: &'a [u32],
    flaws: &'a [Flaw],
) -> anyhow::Result<()> {
    Trial {
        name,
        tracks: 2,
        capacity: 480_000,
        flaws,
        laid,
        recordings: &[&[Act::Block(0x3C)]],
    }
    .run(rt)
}

pub(crate) fn trials(rt: &HostRuntime) -> anyhow::Result<()> {
    on_laid(rt, "copies 2, 1, 2", &[2, 1, 2], &[])?;
    on_laid(rt, "copies 2, 3", &[2, 3], &[])?;
    on_laid(rt, "copies 1, 3", &[1, 3], &[])?;
    on_laid(
        rt,
        "copies 1, 1, 2, 3, the first two spoiled",
        &[1, 1, 2, 3],
        &SPOILED,
    )
}
