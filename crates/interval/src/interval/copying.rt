// Cells copied out of the bytes of an interval store.
ghost use Rattle.std.specs.Prelude.{◌≡◌, ◌+◌, ◌<◌, ◌≤◌, length, take, replicate};
ghost use Rattle.std.specs.List.{flat_map};
ghost use Rattle.tape.specs.Tape.{most_cells};
ghost use Rattle.interval.specs.Intervals.{gap};
ghost use Rattle.interval.specs.Gaps.{WithOne, Copied};

use crate::interval::track::ZEROS_ALONE;

// So many bytes are passed over together.
const STRETCH: usize = 256;

// How many cells a few bytes stand for. The sum of 16 bits is for speed: the bar of interval_read.
fn count_cells(bytes: &[u8]) -> u16
    requires { length bytes.now ≤ STRETCH }
    ensures { result ≡ length (flat_map gap bytes.now) }
{
    bytes
        .iter()
        .map(|byte| u16::from(byte.saturating_add(1)))
        .sum()
}

// Passes over bytes that stand for cells before a place: how many bytes, and how many cells.
fn pass_bytes(bytes: &[u8], place: usize) -> (usize, usize)
    ensures bytes { result.0 ≤ length bytes.now }
    ensures cells { result.1 ≡ length (flat_map gap (take result.0 bytes.now)) }
    ensures before { result.1 ≤ place }
{
    // Counted along: the loop may end early, and both counts are wanted after it.
    let mut passed = 0;
    let mut cells = 0;
    for stretch in bytes.chunks_exact(STRETCH) {
        let more = usize::from(count_cells(stretch));
        if more > place - cells {
            break;
        }
        passed += STRETCH;
        cells += more;
    }
    (passed, cells)
}

// Sets a one at a place of the track, unless that is before the cells from `place` on.
// The place and the buffer stay two arguments: a struct of both would lend the buffer, and its contracts speak of the loan.
fn set_one(out: &mut [u8], place: usize, one: usize)
    requires { one < place + length out.old }
    ensures { WithOne place one out.old out.new }
{
    if one >= place {
        out[one - place] = 1;
    }
}

// Sets the ones of some bytes among the cells from `place` on, which are zeros.
fn set_ones(bytes: &[u8], place: usize, out: &mut [u8])
    requires small { length bytes.now ≤ most_cells }
    requires within { place + length out.old ≤ most_cells }
    requires zeros { out.old ≡ replicate (length out.old) 0 }
    ensures { Copied place bytes.now out.old out.new }
{
    let end = place + out.len();
    let mut begin = 0;
    for byte in bytes {
        let one = begin + usize::from(*byte);
        if one >= end {
            break;
        }
        begin = one;
        if *byte < ZEROS_ALONE {
            set_one(out, place, one);
            begin += 1;
        }
    }
}

// Copies the cells of some bytes, followed by zeros, from `place` on.
pub(crate) fn copy_cells(bytes: &[u8], place: usize, out: &mut [u8])
    requires small { length bytes.now ≤ most_cells }
    requires within { place + length out.old ≤ most_cells }
    ensures { Copied place bytes.now out.old out.new }
{
    out.fill(0);
    let (passed, cells) = pass_bytes(bytes, place);
    set_ones(&bytes[passed..], place - cells, out);
}
