// Reads a script command by command.
ghost use Rattle.std.specs.Prelude.{◌≡◌, ℕ, ◌+◌, ◌<◌, ◌≤◌, ◌++◌, length, drop, Ok, slice_index};
ghost use Rattle.script.specs.Reading.{told, answered, at_byte, read, taken};
ghost use Rattle.script.specs.Fronts.{OnlyAnswer};

use crate::command::{BEGIN, Command, FLAW, MARK, REPLAY, STOP, SURVEY, WRITE};
use crate::refusal::Refusal;

// A script that is lent, and the place of its next command.
#[derive(Drop)]
pub struct Reader<'a> {
    script: &'a [u8],
    place: usize,
    ghost inside: { place ≤ length script.now },
}

impl<'a> Reader<'a> {
    // Stands at the script's first command.
    pub fn new(script: &'a [u8]) -> Reader<'a>
        ensures script { result.script ≡ script.entry }
        ensures place { result.place ≡ 0 }
    {
        Reader { script, place: 0 }
    }

    // Hands out the next command, or none at the script's end. A refusal leaves the reader where it stands.
    pub fn next_command(&mut self) -> Result<Option<Command<'a>>, Refusal>
        ensures command { told result ≡ read (drop self.old.place self.old.script.now) }
        ensures place { self.new.place ≡ self.old.place + length (taken (told result)) }
        ensures script { self.new.script ≡ self.old.script }
        ensures part { drop self.old.place self.old.script.now ≡ taken (told result) ++ drop self.new.place self.new.script.now }
        ensures exact { OnlyAnswer (drop self.old.place self.old.script.now) (told result) }
    {
        let next = first_command(&self.script[self.place..])?;
        self.place += next.map_or(0, Command::size);
        Ok(next)
    }

    // Where the next command begins.
    pub fn place(&self) -> usize
        ensures { result ≡ self.now.place }
    {
        self.place // the bytes before it are read
    }
}

// The command at the front of some bytes.
fn first_command(left: &[u8]) -> Result<Option<Command<'_>>, Refusal>
    ensures command { told result ≡ read left.now }
    ensures bytes { (k : ℕ) → slice_index left.now k < 256 }
{
    let [byte, operands @ ..] = left else {
        return Ok(None);
    };
    let command = match *byte {
        WRITE => write_from(operands)?,
        MARK => Command::Mark,
        BEGIN => Command::Begin,
        STOP => Command::Stop,
        REPLAY => Command::Replay,
        FLAW => flaw_from(operands)?,
        SURVEY => Command::Survey,
        _ => return Err(Refusal::UnknownCommand),
    };
    Ok(Some(command))
}

// A write, whose block stays a part of the script.
fn write_from(operands: &[u8]) -> Result<Command<'_>, Refusal>
    ensures { answered result ≡ at_byte 1 operands.now }
{
    let (block, _) = operands.split_first_chunk().ok_or(Refusal::CutShort)?;
    Ok(Command::Write(block))
}

// A flaw: its track, its place in four bytes and its length in two.
fn flaw_from(operands: &[u8]) -> Result<Command<'_>, Refusal>
    ensures { answered result ≡ at_byte 6 operands.now }
{
    let [track, p0, p1, p2, p3, l0, l1, ..] = operands else {
        return Err(Refusal::CutShort);
    };
    Ok(Command::Flaw {
        track: *track,
        place: u32::from_be_bytes([*p0, *p1, *p2, *p3]),
        length: u16::from_be_bytes([*l0, *l1]),
    })
}
