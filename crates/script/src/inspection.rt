// A look through a whole script, without running it.
ghost use Rattle.std.specs.Prelude.{◌≡◌};
ghost use Rattle.script.specs.Readouts.{read_out, inspected, WrittenThenRead, ReadThenWritten};

use crate::reader::Reader;
use crate::refusal::Refusal;

// No Result, since count and place are told beside a refusal too: how many commands a script holds, the place where reading ended, and the refusal there, or none at the script's end.
#[derive(Clone, Copy, Debug)]
pub struct Inspection {
    pub commands: usize,
    pub place: usize,
    pub refusal: Option<Refusal>,
}

// Reads a script to its end, or to the first command that cannot be read.
pub fn inspect(script: &[u8]) -> Inspection
    ensures inspection { result ≡ inspected (read_out script.now) }
    ensures written_then_read { WrittenThenRead }
    ensures read_then_written { ReadThenWritten }
{
    let mut reader = Reader::new(script);
    let mut commands = 0;
    let refusal = loop {
        match reader.next_command() {
            Ok(Some(_)) => commands += 1,
            Ok(None) => break None,
            Err(refusal) => break Some(refusal),
        }
    };
    Inspection {
        commands,
        place: reader.place(),
        refusal,
    }
}
