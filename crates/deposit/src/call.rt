// The calls that an operator makes of a deck, and what they are answered.
use deck::Refusal;

#[derive(Clone, Copy)]
pub enum Call<'a> {
    Begin,
    Write(&'a [u8]),
    Mark,
    Stop,
}

// What a call answers that is not refused.
#[derive(Clone, Copy)]
pub enum Taken {
    // The number that begin, write and mark answer.
    Next(u32),
    // How many items a recording kept.
    Kept(u32),
}

pub type Answer = Result<Taken, Refusal>;

// The answers to the calls of an operator, and to the stop that closes a recording which they leave open.
#[derive(Drop)]
pub struct Operated {
    pub answers: Vec<Answer>,
    pub closing: Option<Result<u32, Refusal>>,
}
