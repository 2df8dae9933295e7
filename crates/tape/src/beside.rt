// Two cartridges side by side.
ghost use Rattle.std.specs.Prelude.{◌≡◌, length, take, drop, MatchResult, OnOk};
ghost use Rattle.tape.specs.Calls.{read_answer};
ghost use Rattle.tape.specs.Tape.{track};

use crate::cartridge::Reading;
use crate::refusal::Refusal;

// Reads the same place of two cartridges of any kinds.
pub fn read_both<C: Reading, D: Reading>(
    c: &C,
    d: &D,
    at: u8,
    place: u32,
    one: &mut [u8],
    other: &mut [u8],
) -> (Result<(), Refusal>, Result<(), Refusal>)
    ensures one_answer { result.0 ≡ read_answer (C.Reading.cells c.now) at place (length one.old) }
    ensures other_answer { result.1 ≡ read_answer (D.Reading.cells d.now) at place (length other.old) }
    ensures one_buffer { MatchResult result.0 (λ _. one.new ≡ take (length one.old) (drop place (track (C.Reading.cells c.now) at))) (λ _. one.new ≡ one.old) }
    ensures other_buffer { MatchResult result.1 (λ _. other.new ≡ take (length other.old) (drop place (track (D.Reading.cells d.now) at))) (λ _. other.new ≡ other.old) }
    ensures alike { C.Reading.cells c.now ≡ D.Reading.cells d.now → length one.old ≡ length other.old → (result.0 ≡ result.1) × OnOk result.0 (one.new ≡ other.new) }
{
    (c.read(at, place, one), d.read(at, place, other))
}
