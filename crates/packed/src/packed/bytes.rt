// Cells in the bytes of a track. That they fit is asked each time: a fact of bytes, place and cells together, which no one value has.
ghost use Rattle.std.specs.Prelude.{◌≡◌, ℕ, ◌+◌, ◌*◌, ◌/◌, ◌%◌, ◌<◌, ◌≤◌, map, length, ◌≢◌};
ghost use Rattle.std.specs.List.{range_with_len};
ghost use Rattle.tape.specs.Tape.{cell};
ghost use Rattle.packed.specs.Packed.{bit, packed_bytes, packed_cell};
ghost use Rattle.packed.specs.Packing.{Merged, Put};

// The byte with the bit j set to a cell.
fn with_bit(byte: u8, j: usize, sent: u8) -> u8
    requires { j < 8 }
    ensures this { bit result j ≡ cell sent }
    ensures others { (i : ℕ) → i < 8 → (i ≢ j) → bit result i ≡ bit byte i }
{
    let weight = 0x80 >> j;
    if sent == 0 {
        byte & !weight
    } else {
        byte | weight
    }
}

// The byte with cells put into it from the bit j on.
fn merged(byte: u8, j: usize, cells: &[u8]) -> u8
    requires { j + length cells.now ≤ 8 }
    ensures { Merged byte j cells.now result }
{
    let mut merged = byte;
    for (i, sent) in cells.iter().enumerate() {
        merged = with_bit(merged, j + i, *sent);
    }
    merged
}

// Eight cells as a byte: each byte's own high bit is set where the byte is not 0, and a product gathers those bits.
fn packed8(cells: &[u8; 8]) -> u8
    ensures { (old : ℕ) → Merged old 0 cells.now result }
{
    // Cell by cell: from the array as a whole, the compiler's loop over bytes is a fifth slower.
    let word = u64::from_le_bytes([
        cells[0], cells[1], cells[2], cells[3], cells[4], cells[5], cells[6], cells[7],
    ]);
    let high = (((word & 0x7F7F_7F7F_7F7F_7F7F) + 0x7F7F_7F7F_7F7F_7F7F) | word)
        & 0x8080_8080_8080_8080;
    ((high >> 7).wrapping_mul(0x8040_2010_0804_0201) >> 56) as u8
}

// A byte as eight cells: a product copies it to eight places, of which each keeps one bit.
fn unpacked8(byte: u8) -> [u8; 8]
    ensures { result ≡ map (bit byte) (range_with_len 0 8) }
{
    let copies = u64::from(byte) * 0x0101_0101_0101_0101;
    let bits = copies & 0x0102_0408_1020_4080;
    (((bits + 0x7F7F_7F7F_7F7F_7F7F) >> 7) & 0x0101_0101_0101_0101).to_le_bytes()
}

// Puts cells into a part of one byte.
fn put_part(bytes: &mut [u8], place: usize, sent: &[u8])
    requires part { place % 8 + length sent.now ≤ 8 }
    requires within { packed_bytes (place + length sent.now) ≤ length bytes.old }
    ensures { Put 0 place sent.now bytes.old bytes.new }
{
    if !sent.is_empty() {
        let k = place / 8;
        bytes[k] = merged(bytes[k], place % 8, sent);
    }
}

// Puts cells from the first of a byte on.
fn put_aligned(bytes: &mut [u8], sent: &[u8])
    requires { packed_bytes (length sent.now) ≤ length bytes.old }
    ensures { Put 0 0 sent.now bytes.old bytes.new }
{
    let (whole, rest) = sent.as_chunks::<8>();
    // Written by index, since of what `iter_mut` lends a proof would know no element.
    for (k, eight) in whole.iter().enumerate() {
        bytes[k] = packed8(eight);
    }
    put_part(bytes, 8 * whole.len(), rest);
}

// Puts cells at the places of a track from `place` on.
pub(crate) fn put(track: &mut [u8], place: usize, sent: &[u8])
    requires { packed_bytes (place + length sent.now) ≤ length track.old }
    ensures { Put 0 place sent.now track.old track.new }
{
    let gap = (8 - place % 8) % 8;
    if sent.len() <= gap {
        put_part(track, place, sent);
    } else {
        let (front, rest) = sent.split_at(gap);
        put_part(track, place, front);
        put_aligned(&mut track[place.div_ceil(8)..], rest);
    }
}

// Copies cells of a part of one byte.
fn get_part(bytes: &[u8], place: usize, out: &mut [u8])
    requires part { place % 8 + length out.old ≤ 8 }
    requires within { packed_bytes (place + length out.old) ≤ length bytes.now }
    ensures { out.new ≡ map (packed_cell bytes.now 0) (range_with_len place (length out.old)) }
{
    if !out.is_empty() {
        let cells = unpacked8(bytes[place / 8]);
        let j = place % 8;
        out.copy_from_slice(&cells[j..j + out.len()]);
    }
}

// Copies the cells of whole bytes.
fn get_whole(bytes: &[u8], out: &mut [u8])
    requires { 8 * length bytes.now ≡ length out.old }
    ensures { out.new ≡ map (packed_cell bytes.now 0) (range_with_len 0 (length out.old)) }
{
    // Written by index, since of what `chunks_mut` lends a proof would know no element.
    for (k, byte) in bytes.iter().enumerate() {
        out[8 * k..8 * k + 8].copy_from_slice(&unpacked8(*byte));
    }
}

// Copies cells from the first of a byte on.
fn get_aligned(bytes: &[u8], out: &mut [u8])
    requires { packed_bytes (length out.old) ≤ length bytes.now }
    ensures { out.new ≡ map (packed_cell bytes.now 0) (range_with_len 0 (length out.old)) }
{
    let (first, last) = bytes.split_at(out.len() / 8);
    let (whole, rest) = out.split_at_mut(8 * first.len());
    get_whole(first, whole);
    get_part(last, 0, rest);
}

// Copies the cells of a track from `place` on.
pub(crate) fn get(track: &[u8], place: usize, out: &mut [u8])
    requires { packed_bytes (place + length out.old) ≤ length track.now }
    ensures { out.new ≡ map (packed_cell track.now 0) (range_with_len place (length out.old)) }
{
    let gap = (8 - place % 8) % 8;
    if out.len() <= gap {
        get_part(track, place, out);
    } else {
        let (front, rest) = out.split_at_mut(gap);
        get_part(track, place, front);
        get_aligned(&track[place.div_ceil(8)..], rest);
    }
}
