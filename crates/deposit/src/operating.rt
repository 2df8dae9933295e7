// An operator's calls of a deck, one after the other.
ghost use Rattle.std.specs.Prelude.{◌≡◌, ◌≤◌, false, [], length, vec_capacity};
ghost use Rattle.deck.specs.CallContract.{CallHad};
ghost use Rattle.deck.specs.Ending.{is_open};
ghost use Rattle.deck.specs.State.{deck_state};
ghost use Rattle.deposit.specs.OperatorCalls.{call_of, answer_of};
ghost use Rattle.deposit.specs.Operating.{CallsMade, Operates};

use crate::call::{Answer, Call, Operated, Taken};
use operator::Operator;
use tape::{Reading, Recording};

fn make_call<C: Recording>(operator: &mut Operator<C>, call: Call<'_>) -> Answer
    ensures { CallHad C.Reading.room C.Reading.cells C.Reading.takes operator.old.deck.cartridge operator.new.deck.cartridge (deck_state operator.old.deck.session) (deck_state operator.new.deck.session) (call_of call.entry) (answer_of result) }
{
    match call {
        Call::Begin => operator.begin().map(Taken::Next),
        Call::Write(block) => operator.write(block).map(Taken::Next),
        Call::Mark => operator.mark().map(Taken::Next),
        Call::Stop => operator.stop().map(Taken::Kept),
    }
}

// Makes the calls, and adds the answers to a list that has room for them: no memory is asked for while a recording is open.
fn make_calls<C: Recording>(
    operator: &mut Operator<C>,
    calls: &[Call<'_>],
    answers: &mut Vec<Answer>,
)
    requires idle { is_open (deck_state operator.old.deck.session) ≡ false }
    requires empty { answers.old.items ≡ [] }
    requires room { length calls.now ≤ vec_capacity answers.old }
    ensures made { CallsMade (C.Reading.room operator.old.deck.cartridge) (C.Reading.cells operator.old.deck.cartridge) calls.now answers.new.items (C.Reading.cells operator.new.deck.cartridge) (deck_state operator.new.deck.session) }
    ensures same { C.Reading.room operator.new.deck.cartridge ≡ C.Reading.room operator.old.deck.cartridge }
{
    for call in calls {
        let answer = make_call(operator, *call);
        let _ = answers.push(answer);
    }
}

// Makes an operator's calls of a deck that is made of the cartridge, and stops a recording that they leave open.
pub(crate) fn operate<C: Recording>(
    cartridge: C,
    calls: &[Call<'_>],
    mut answers: Vec<Answer>,
) -> (C, Operated)
    requires empty { answers.items ≡ [] }
    requires room { length calls.now ≤ vec_capacity answers }
    ensures made { Operates (C.Reading.room cartridge) (C.Reading.cells cartridge) calls.now result.1 (C.Reading.cells result.0) }
    ensures same { C.Reading.room result.0 ≡ C.Reading.room cartridge }
{
    let mut operator = Operator::new(cartridge);
    make_calls(&mut operator, calls, &mut answers);
    let (cartridge, closing) = operator.finish();
    (cartridge, Operated { answers, closing })
}
