// Next: the item that a replay hands out from its cursor on.
ghost use Rattle.std.specs.Prelude.{◌≡◌};
ghost use Rattle.replay.specs.Answered.{found_by, goes_on};
ghost use Rattle.replay.specs.Finding.{NextFinds};
ghost use Rattle.replay.specs.Laws.{OpensExactly, ListsSoundCopies, OneList, NeverOverlap, ReplaysSoundCopies, NextByNext, ReplaysInOrder};
ghost use Rattle.replay.specs.Seeking.{next_found, cursor_after};

use crate::copies::copy_from;
use crate::cursor::ReplayCursor;
use crate::found::Found;
use crate::place::TapePlace;
use crate::unlocated::UnlocatedNumber;
use tape::Reading;

// The cells of a copy after its opening.
const BODY: u32 = qic24::BODY as u32;

// The expected item; the end; or why the number is not located. One arm for each of smaller, equal, next and beyond: a rule of the project.
pub fn next_item<C: Reading>(cartridge: &C, cursor: &ReplayCursor) -> Result<Found, UnlocatedNumber>
    ensures answer { found_by result ≡ next_found (C.Reading.cells cartridge.now) cursor.now }
    ensures after { goes_on cursor.now result ≡ cursor_after cursor.now (next_found (C.Reading.cells cartridge.now) cursor.now) }
    ensures finds { NextFinds }
    ensures steps { NextByNext }
    ensures copies { ReplaysSoundCopies }
    ensures order { ReplaysInOrder }
    ensures lists { ListsSoundCopies }
    ensures once { OneList }
    ensures openings { OpensExactly }
    ensures clear { NeverOverlap }
{
    let expected = cursor.expected;
    let mut from = cursor.from;
    let mut passed = false;
    let mut unsound = None;
    while let Some((place, item)) = copy_from(cartridge, from, &mut unsound) {
        // no opening stands inside a sound copy
        let at = place.at + BODY;
        from = TapePlace { at, ..place };
        match item.number() {
            number if number < expected => {}
            number if number == expected => {
                let expected = expected + 1;
                let after = ReplayCursor { expected, from };
                return Ok(Found::Item { place, item, after });
            }
            number if number - 1 == expected => passed = true,
            _ => {
                let found = place;
                return Err(UnlocatedNumber {
                    expected,
                    found,
                    unsound,
                });
            }
        }
    }
    Ok(Found::End { passed })
}
