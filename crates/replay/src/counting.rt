// The number after the last item of a tape.
ghost use Rattle.std.specs.Prelude.{◌≡◌, ◌≤◌, IfOk};
ghost use Rattle.replay.specs.Answered.{number_after};
ghost use Rattle.replay.specs.Seeking.{tape_replay};

use crate::cursor::ReplayCursor;
use crate::found::Found;
use crate::seeking::next_item;
use crate::unlocated::UnlocatedNumber;
use tape::Reading;

// Replays the whole tape; the refusal is the replay's.
pub fn next_number<C: Reading>(cartridge: &C) -> Result<u32, UnlocatedNumber>
    ensures answer { result ≡ number_after (tape_replay (C.Reading.cells cartridge.now)).state (tape_replay (C.Reading.cells cartridge.now)).unsound }
    ensures small { IfOk result (λ n. (1 ≤ n) × (n ≤ 1048576)) }
{
    let mut cursor = ReplayCursor::rewound();
    // no iterator: the end and a refusal stay at the cursor, and are found there again
    while let Found::Item { after, .. } = next_item(cartridge, &cursor)? {
        cursor = after;
    }
    Ok(cursor.expected)
}
