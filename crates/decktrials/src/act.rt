// What is done while a recording is open.
ghost use Rattle.std.specs.Prelude.{◌≡◌, true};
ghost use Rattle.deck.specs.Ending.{is_open};
ghost use Rattle.deck.specs.State.{deck_state};

use crate::show::{show_number, show_refusal};
use deck::Refusal;
use operator::Operator;
use tape::{Reading, Recording};

#[derive(Clone, Copy)]
pub(crate) enum Act {
    // marks up to so many; the answer of the last is shown
    Marks(u32),
    // a block of this byte throughout
    Block(u8),
    // a block that is a byte short
    Short,
    // the calls that an open recording declines
    Begin,
    Next,
    Rewind,
}

// Marks until one is refused or there are so many; the last answer.
fn marks<C: Recording>(operator: &mut Operator<C>, count: u32) -> Result<u32, Refusal>
    ensures { is_open (deck_state operator.new.deck.session) ≡ is_open (deck_state operator.old.deck.session) }
{
    let mut last = 0;
    for _ in 0..count {
        last = operator.mark()?;
    }
    Ok(last)
}

pub(crate) fn perform<C: Recording>(
    log: &mut String,
    operator: &mut Operator<C>,
    act: Act,
) -> anyhow::Result<()>
    ensures { is_open (deck_state operator.old.deck.session) ≡ true → is_open (deck_state operator.new.deck.session) ≡ true }
{
    match act {
        Act::Marks(count) => show_number(log, "mark", marks(operator, count)),
        Act::Block(byte) => show_number(log, "block", operator.write(&[byte; 512])),
        Act::Short => show_number(log, "block", operator.write(&[0; 511])),
        Act::Begin => show_number(log, "begin", operator.begin()),
        Act::Next => match operator.next(&mut [0; 512]) {
            Ok(_) => {
                writeln!(log, "handed out")?;
                Ok(())
            }
            Err(refusal) => show_refusal(log, refusal),
        },
        Act::Rewind => match operator.rewind() {
            Ok(()) => {
                writeln!(log, "rewound")?;
                Ok(())
            }
            Err(refusal) => show_refusal(log, refusal),
        },
    }
}
