// The deck on examples: its answers, and the cells that it records.

#![tactic(auto)]

mod act;
mod declining;
mod laying;
mod operate;
mod room;
mod show;
mod trial;
mod writings;

fn run(rt: &HostRuntime) -> anyhow::Result<()> {
    room::trials(rt)?;
    writings::trials(rt)?;
    laying::trials(rt)?;
    declining::trials(rt)
}

fn main(rt: HostRuntime) -> anyhow::Result<()> {
    run(&rt)
}
