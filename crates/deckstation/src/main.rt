// The station: runs a job script from standard input and prints a line for each answer.

#![tactic(auto)]

ghost use Rattle.std.specs.Prelude.{◌≤◌, length, IfOk};

use operator::Operator;
use packed::PackedStore;
use running::run;
use std::io;
use std::io::Read;
use tape::{FlawSheet, Reading};

mod answers;
mod replaying;
mod running;

// How much of the input is a script.
const LIMIT: usize = 4_096;

// The cells of the one track, and the bytes that hold them.
const CAPACITY: u32 = 480_000;

const BYTES: usize = 60_000;

// The script that stands on standard input, of which no more is read than the limit.
fn read_script(rt: &HostRuntime) -> io::Result<Vec<u8>>
    ensures { IfOk result (λ script. length script.items ≤ 4096) }
{
    let mut script = Vec::new(rt.alloc());
    let _ = rt.stdin().take(LIMIT as u64).read_to_end(&mut script)?;
    // cuts nothing off, but the library's contracts do not say so
    script.truncate(LIMIT);
    Ok(script)
}

fn station(rt: &HostRuntime) -> anyhow::Result<()> {
    let script = read_script(rt)?;
    let memory = vec![in rt.alloc(); 0u8; BYTES]?;
    let (store, _) = PackedStore::new(memory, 1, CAPACITY);
    run(rt, Operator::new(FlawSheet::new(store)), script.as_slice())
}

fn main(rt: HostRuntime) -> anyhow::Result<()> {
    station(&rt)
}
