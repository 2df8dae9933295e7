// Runs a script over a deck.
use crate::answers::{print_flaw, print_number};
use crate::replaying::replay_all;
use operator::Operator;
use script::{Command, Reader};
use tape::{Flaw, FlawSheet, Reading, Recording};

// One command, and the lines that it prints.
fn perform<C: Recording>(
    rt: &HostRuntime,
    operator: &mut Operator<FlawSheet<C>>,
    command: Command<'_>,
) -> anyhow::Result<()> {
    match command {
        Command::Begin => print_number(rt, "begin", operator.begin()),
        Command::Stop => print_number(rt, "stop", operator.stop()),
        Command::Write(block) => print_number(rt, "block", operator.write(block)),
        Command::Mark => print_number(rt, "mark", operator.mark()),
        Command::Replay => replay_all(rt, operator),
        Command::Flaw {
            track,
            place,
            length,
        } => {
            let flaw = Flaw {
                on: track,
                place,
                extent: u32::from(length),
            };
            print_flaw(rt, operator.enter_flaw(flaw))
        }
        Command::Survey => not_built(rt, "survey"),
    }
}

fn not_built(rt: &HostRuntime, command: &str) -> anyhow::Result<()> {
    eprintln!(rt; "station: the command {command} is not built yet")?;
    Ok(())
}

// The commands up to the script's end, or to the first that cannot be read or printed.
fn perform_all<C: Recording>(
    rt: &HostRuntime,
    operator: &mut Operator<FlawSheet<C>>,
    script: &[u8],
) -> anyhow::Result<()> {
    let mut reader = Reader::new(script);
    loop {
        match reader.next_command() {
            Ok(Some(command)) => perform(rt, operator, command)?,
            Ok(None) => return Ok(()),
            Err(refusal) => {
                println!(rt; "refused {refusal}")?;
                return Ok(());
            }
        }
    }
}

// Runs a script, and stops the recording that is open at its end.
pub(crate) fn run<C: Recording + Drop>(
    rt: &HostRuntime,
    mut operator: Operator<FlawSheet<C>>,
    script: &[u8],
) -> anyhow::Result<()> {
    let performed = perform_all(rt, &mut operator, script);
    let (_cartridge, stopped) = operator.finish();
    let printed = match stopped {
        Some(kept) => print_number(rt, "stop", kept),
        None => Ok(()),
    };
    performed?;
    printed
}
