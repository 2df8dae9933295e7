// The station: runs a job script from standard input and prints a line for each answer.

#![tactic(auto)]

ghost use Rattle.std.specs.Prelude.{◌≤◌, length, IfOk};

use recorder::Recorder;
use refusal::Refusal;
use script::{Command, Reader};
use std::io;
use std::io::Read;
use tape::Flaw;

mod recorder;
mod refusal;
mod replaying;

// How much of the input is a script.
const LIMIT: usize = 4_096;

// The script that stands on standard input, of which no more is read than the limit.
fn read_script(rt: &HostRuntime) -> io::Result<Vec<u8>>
    ensures { IfOk result (λ script. length script.items ≤ 4096) }
{
    let mut script = Vec::new(rt.alloc());
    let _ = rt.stdin().take(LIMIT as u64).read_to_end(&mut script)?;
    // cuts nothing off, but the library's contracts do not say so
    script.truncate(LIMIT);
    Ok(script)
}

// What was done, with the number that it was answered.
fn print_number(rt: &HostRuntime, done: &str, answer: Result<u32, Refusal>) -> anyhow::Result<()> {
    match answer {
        Ok(number) => println!(rt; "{done} {number}")?,
        Err(refusal) => println!(rt; "refused {refusal}")?,
    }
    Ok(())
}

fn print_flaw(rt: &HostRuntime, answer: Result<(), Refusal>) -> anyhow::Result<()> {
    match answer {
        Ok(()) => println!(rt; "flaw")?,
        Err(refusal) => println!(rt; "refused {refusal}")?,
    }
    Ok(())
}

// One command, and the lines that it prints.
fn perform(rt: &HostRuntime, recorder: &mut Recorder, command: Command<'_>) -> anyhow::Result<()> {
    match command {
        Command::Begin => print_number(rt, "begin", recorder.begin()),
        Command::Write(block) => print_number(rt, "block", recorder.write(block)),
        Command::Mark => print_number(rt, "mark", recorder.mark()),
        Command::Stop => print_number(rt, "stop", recorder.stop()),
        Command::Replay => recorder.replay(rt),
        Command::Flaw {
            track,
            place,
            length,
        } => {
            let flaw = Flaw {
                on: track,
                place,
                extent: u32::from(length),
            };
            print_flaw(rt, recorder.enter_flaw(flaw))
        }
        Command::Survey => not_built(rt, "survey"),
    }
}

fn not_built(rt: &HostRuntime, command: &str) -> anyhow::Result<()> {
    eprintln!(rt; "station: the command {command} is not built yet")?;
    Ok(())
}

// The commands up to the script's end, or to the first that cannot be read.
fn perform_all(rt: &HostRuntime, recorder: &mut Recorder, script: &[u8]) -> anyhow::Result<()> {
    let mut reader = Reader::new(script);
    loop {
        match reader.next_command() {
            Ok(Some(command)) => perform(rt, recorder, command)?,
            Ok(None) => return Ok(()),
            Err(refusal) => {
                println!(rt; "refused {refusal}")?;
                return Ok(());
            }
        }
    }
}

// Runs a script, and stops the recording that is open at its end.
fn run(rt: &HostRuntime, script: &[u8]) -> anyhow::Result<()> {
    let mut recorder = Recorder::new(rt.alloc())?;
    perform_all(rt, &mut recorder, script)?;
    match recorder.stop() {
        Err(Refusal::NotRecording) => Ok(()),
        answer => print_number(rt, "stop", answer),
    }
}

fn main(rt: HostRuntime) -> anyhow::Result<()> {
    run(&rt, read_script(&rt)?.as_slice())
}
