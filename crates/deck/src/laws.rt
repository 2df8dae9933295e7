// The numbers that recording and replay go by, each with what is proved of them.
ghost use Rattle.std.specs.Prelude.{◌≡◌};
ghost use Rattle.deck.specs.Agreement.{ListAndTape};
ghost use Rattle.deck.specs.CallsMade.{RoomToFinish};
ghost use Rattle.replay.specs.Finding.{NextFinds};
ghost use Rattle.replay.specs.Laws.{OpensExactly, ListsSoundCopies, OneList, StandsExactly, NeverOverlap, SoundForGood, ReplaysSoundCopies, ReplaysInOrder, NextByNext};
ghost use Rattle.replay.specs.Copies.{body_cells};
ghost use Rattle.deck.specs.Measures.{finish_room};
ghost use Rattle.replay.specs.Seeking.{rewound_cursor};

use crate::measures::FINISH_ROOM;
use qic24::BODY;

// The cells of a copy after its opening.
pub fn copy_cells() -> u32
    ensures value { result ≡ body_cells }
    ensures openings { OpensExactly }
    ensures lists { ListsSoundCopies }
    ensures once { OneList }
    ensures stands { StandsExactly }
    ensures clear { NeverOverlap }
    ensures good { SoundForGood }
{
    BODY as u32
}

// The number that a replay expects first.
pub fn first_number() -> u32
    ensures value { result ≡ rewound_cursor.expected }
    ensures copies { ReplaysSoundCopies }
    ensures order { ReplaysInOrder }
    ensures steps { NextByNext }
    ensures finds { NextFinds }
{
    1
}

// The cells that finishing an item may take.
pub fn room_to_finish() -> u32
    ensures value { result ≡ finish_room }
    ensures room { RoomToFinish }
    ensures agreement { ListAndTape }
{
    FINISH_ROOM
}
