// From the cells after an opening to the item, or to the first cause why they are none.
ghost use Rattle.std.specs.Prelude.{◌≡◌, ℕ, ◌+◌, ◌*◌, ◌<◌, ◌≤◌, List, map, length, if◌then◌else◌, Some, None, Ok, Err, MatchResult, nat_eq};
ghost use Rattle.qic24.specs.Cells.{cell, number_of};
ghost use Rattle.qic24.specs.Copy.{held};
ghost use Rattle.qic24.specs.Decode.{entry, groups, no_code_at, fault_at, first_fault, marks_in, byte_of, GroupsAre, word_at, number_in, content_in, mixed, mapped_ok, judged, decoded};
ghost use Rattle.qic24.specs.Symbols.{symbol_of, symbol_byte, symbol_is_mark};
ghost use Rattle.qic24.specs.Laws.{ReadsExactly, ReadsBack};

use crate::crc16::crc;
use crate::fault::{CopyFault, GroupFault};
use crate::item::{Content, Item, MOST};
use crate::layout::{BODY, CHECKED, DATA, GROUPS};
use crate::reading;
use crate::sense::cell_of;

// What a group that is a code stands for. The mark byte is a code too and no missing byte, so this is no Option.
#[derive(Clone, Copy, PartialEq, Eq, Debug)]
enum Symbol {
    Byte(u8),
    Mark,
}

impl Symbol {
    // Its byte; a mark byte counts as FF.
    fn byte(self) -> u8
        ensures { result ≡ symbol_byte self }
    {
        match self {
            Symbol::Byte(byte) => byte,
            Symbol::Mark => 0xFF,
        }
    }

    fn is_mark(self) -> bool
        ensures { result ≡ symbol_is_mark self }
    {
        matches!(self, Symbol::Mark)
    }
}

// Ten cells as a number, the first one highest.
fn group(cells: &[u8; 10]) -> u16
    ensures value { result ≡ number_of (map cell cells.now) }
    ensures small { result < 1024 }
{
    let mut number = 0;
    for cell in cells {
        number = number * 2 + cell_of(*cell);
    }
    number
}

// What a group reads as, if it is a code.
fn look_up(group: u16) -> Option<Symbol>
    requires { group < 1024 }
    ensures { result ≡ (if nat_eq (entry group) 257 then None else Some (symbol_of (entry group))) }
{
    let entry = reading::reading()[usize::from(group)];
    match u8::try_from(entry) {
        Ok(byte) => Some(Symbol::Byte(byte)),
        Err(_) if entry == reading::MARK_BYTE => Some(Symbol::Mark),
        Err(_) => None,
    }
}

// The symbol of the group at an index, which is refused where it may not stand.
fn read_group(index: u16, cells: &[u8; 10]) -> Result<Symbol, GroupFault>
    ensures { result ≡ (if no_code_at index (entry (number_of (map cell cells.now))) then Err (fault_at index (number_of (map cell cells.now))) else Ok (symbol_of (entry (number_of (map cell cells.now))))) }
{
    let cells = group(cells);
    match look_up(cells) {
        Some(Symbol::Mark) if usize::from(index) >= DATA => Err(GroupFault { index, cells }),
        Some(symbol) => Ok(symbol),
        None => Err(GroupFault { index, cells }),
    }
}

// The bytes of all groups, and how many were mark bytes.
#[derive(Clone, Copy, PartialEq, Eq, Debug)]
struct Groups {
    bytes: [u8; GROUPS],
    marks: u16,
}

// Reads the 518 groups, up to the first that is no code where it stands.
fn read_groups(body: &[u8; BODY]) -> Result<Groups, GroupFault>
    ensures { MatchResult result (λ g. GroupsAre (groups 518 (map cell body.now)) g.bytes g.marks) (λ f. first_fault 0 (groups 518 (map cell body.now)) ≡ Some f) }
{
    let mut bytes = [0; GROUPS];
    let mut marks = 0;
    for (index, cells) in body.as_chunks().0.iter().enumerate() {
        let symbol = read_group(index as u16, cells)?;
        bytes[index] = symbol.byte();
        marks += u16::from(symbol.is_mark());
    }
    Ok(Groups { bytes, marks })
}

// What the bytes of a copy hold besides its address and CRC.
fn content(groups: &Groups) -> Content
    ensures { result ≡ content_in groups.now.marks groups.now.bytes }
{
    if groups.marks != 0 {
        return Content::Mark;
    }
    let mut block = [0; DATA];
    block.copy_from_slice(&groups.bytes[..DATA]);
    Content::Block(block)
}

// The number in the address, of 20 bits.
fn number(bytes: &[u8; GROUPS]) -> u32
    ensures value { result ≡ number_in bytes.now }
    ensures small { result ≤ MOST }
{
    let [.., high, middle, low, _, _] = bytes;
    u32::from_be_bytes([0, high % 16, *middle, *low])
}

// The CRC that was recorded.
fn recorded_check(bytes: &[u8; GROUPS]) -> u16
    ensures { result ≡ word_at bytes.now 516 }
{
    let [.., high, low] = bytes;
    u16::from_be_bytes([*high, *low])
}

// Neither none of the data's bytes nor all of them are mark bytes.
fn is_mixed(marks: u16) -> bool
    ensures { result ≡ mixed marks }
{
    marks != 0 && usize::from(marks) != DATA
}

// The item of 518 bytes, or the first cause after those of the groups.
fn judge(track: u8, groups: &Groups) -> Result<Item, CopyFault>
    ensures { mapped_ok held result ≡ judged track groups.now.marks groups.now.bytes }
{
    let bytes = &groups.bytes;
    let [.., named, high, _, _, _, _] = *bytes;
    if is_mixed(groups.marks) {
        return Err(CopyFault::Mixed);
    }
    if crc(&bytes[..CHECKED]) != recorded_check(bytes) {
        return Err(CopyFault::Check);
    }
    if named != track {
        return Err(CopyFault::OtherTrack(named));
    }
    let control = high / 16;
    if control != 0 {
        return Err(CopyFault::Control(control));
    }
    Item::new(number(bytes), content(groups)).ok_or(CopyFault::NumberZero)
}

// The item whose cells begin the list, on this track, or the first cause why there is none.
pub fn decode(track: u8, cells: &[u8]) -> Result<Item, CopyFault>
    ensures answer { mapped_ok held result ≡ decoded track (map cell cells.now) }
    ensures exactly { ReadsExactly }
    ensures back { ReadsBack }
{
    let body = cells.first_chunk().ok_or(CopyFault::TrackEnds)?;
    let groups = read_groups(body)?;
    judge(track, &groups)
}
