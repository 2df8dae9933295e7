// The command that replays the tape.
ghost use Rattle.std.specs.Prelude.{◌≡◌};

use deck::Next;
use operator::Operator;
use tape::Reading;

const BLOCK: usize = 512;

// Rewinds, and prints a line for each item and one at the end.
pub(crate) fn replay_all<C: Reading>(
    rt: &HostRuntime,
    operator: &mut Operator<C>,
) -> anyhow::Result<()>
    ensures { operator.new.deck.session ≡ operator.old.deck.session }
{
    match operator.rewind() {
        Ok(()) => print_items(rt, operator),
        Err(refusal) => {
            println!(rt; "refused {refusal}")?;
            Ok(())
        }
    }
}

// A line for each item from where the replay stands on; of a block, with its first byte.
fn print_items<C: Reading>(rt: &HostRuntime, operator: &mut Operator<C>) -> anyhow::Result<()>
    ensures { operator.new.deck.session ≡ operator.old.deck.session }
{
    let mut block = [0; BLOCK];
    let mut count = 0u32;
    loop {
        match operator.next(&mut block) {
            Ok(Next::Block { number }) => {
                let first = block[0];
                println!(rt; "replay block {number} {first:02X}")?;
            }
            Ok(Next::Mark { number }) => println!(rt; "replay mark {number}")?,
            Ok(Next::End { .. }) => {
                println!(rt; "replay end {count}")?;
                return Ok(());
            }
            Err(refusal) => {
                println!(rt; "refused {refusal}")?;
                return Ok(());
            }
        }
        count = count.saturating_add(1);
    }
}
