// The commands of a job script.
ghost use Rattle.std.specs.Prelude.{◌≡◌, length};
ghost use Rattle.script.specs.Instructions.{said, written};

// The byte that each command begins with. Numbers, since a script is bytes; what is read is a Command.
pub(crate) const WRITE: u8 = 0x01;

pub(crate) const MARK: u8 = 0x02;

pub(crate) const BEGIN: u8 = 0x03;

pub(crate) const STOP: u8 = 0x04;

pub(crate) const REPLAY: u8 = 0x05;

pub(crate) const FLAW: u8 = 0x06;

pub(crate) const SURVEY: u8 = 0x07;

// How many bytes a block has.
pub(crate) const BLOCK: usize = 512;

// One command, with its operands. A write holds its block as a part of the script.
#[derive(Clone, Copy, Debug)]
pub enum Command<'a> {
    Write(&'a [u8; BLOCK]),
    Mark,
    Begin,
    Stop,
    Replay,
    Flaw { track: u8, place: u32, length: u16 },
    Survey,
}

impl Command<'_> {
    // How many bytes of a script the command takes.
    pub fn size(self) -> usize
        ensures { result ≡ length (written (said self.entry)) }
    {
        match self {
            // as a slice, since a proof then knows the length
            Command::Write(block) => 1 + block.as_slice().len(),
            Command::Flaw { .. } => 1 + 1 + 4 + 2,
            Command::Mark | Command::Begin | Command::Stop | Command::Replay | Command::Survey => 1,
        }
    }
}
