// The records of a borrowed input, of which less and less is left; past its end every byte reads 0.
ghost use Rattle.std.specs.Prelude.{◌<◌, ◌≤◌, length, IfSome};

use qic24::{Content, Preamble};
use tape::Flaw;

#[derive(Clone, Copy)]
pub(crate) struct Records<'a> {
    left: &'a [u8],
}

// The two kinds of store.
#[derive(Clone, Copy)]
pub(crate) enum Kind {
    Packed,
    Interval,
}

// What a store is to be: its kind, tracks and capacity.
#[derive(Clone, Copy)]
pub(crate) struct StoreRequest {
    pub(crate) kind: Kind,
    pub(crate) tracks: u8,
    pub(crate) capacity: u32,
}

#[derive(Clone, Copy)]
pub(crate) enum Record<'a> {
    // C, a size and so many bytes
    Check(&'a [u8]),
    // E, a preamble, a track, a number, and 1 for a mark or 0 and the 512 bytes of a block
    Copy {
        preamble: Preamble,
        track: u8,
        number: u32,
        content: Content,
    },
    // D, a track, a size and so many cells
    Body {
        track: u8,
        cells: &'a [u8],
    },
    // O, a place, a size and so many cells
    Opening {
        from: u32,
        cells: &'a [u8],
    },
    // S, a store and how many bytes it is over
    Store {
        request: StoreRequest,
        size: u32,
    },
    // K, a store
    Deck(StoreRequest),
}

// What is done with a store.
#[derive(Clone, Copy)]
pub(crate) enum StoreCall<'a> {
    // A, a track, a size and so many cells
    Append { track: u8, cells: &'a [u8] },
    // R, a track, a place and a size
    Read { track: u8, place: u32, size: u16 },
    // L, a track
    Length { track: u8 },
    // F, a track, a place and a length in two bytes
    Flaw(Flaw),
}

// What is called of a deck.
#[derive(Clone, Copy)]
pub(crate) enum DeckCall {
    // b
    Begin,
    // w, a seed and a size
    Write { seed: u32, size: u16 },
    // m
    Mark,
    // z
    Stop,
    // n, and the size of a buffer
    Next { size: u16 },
    // r
    Rewind,
    // f, a track, a place and a length in four bytes
    Flaw(Flaw),
}

impl<'a> Records<'a> {
    pub(crate) fn new(input: &'a [u8]) -> Self {
        Records { left: input }
    }

    // The next record, unless its kind is none of these.
    pub(crate) fn next(&mut self) -> Option<Record<'a>>
        ensures { IfSome result (λ _. length self.new.left.now < length self.old.left.now) }
    {
        let (kind, left) = self.left.split_first()?;
        let mut after = Records { left };
        let record = match kind {
            b'C' => Record::Check(after.bytes()),
            b'E' => Record::Copy {
                preamble: after.preamble(),
                track: after.byte(),
                number: after.word(),
                content: after.content(),
            },
            b'D' => Record::Body {
                track: after.byte(),
                cells: after.bytes(),
            },
            b'O' => Record::Opening {
                from: after.word(),
                cells: after.bytes(),
            },
            b'S' => Record::Store {
                request: after.request(),
                size: after.word(),
            },
            b'K' => Record::Deck(after.request()),
            _ => return None,
        };
        *self = after;
        Some(record)
    }

    // What is done next with a store, unless the next record is another.
    pub(crate) fn next_on_store(&mut self) -> Option<StoreCall<'a>>
        ensures call { IfSome result (λ _. length self.new.left.now < length self.old.left.now) }
        ensures left { length self.new.left.now ≤ length self.old.left.now }
    {
        let (kind, left) = self.left.split_first()?;
        let mut after = Records { left };
        let call = match kind {
            b'A' => StoreCall::Append {
                track: after.byte(),
                cells: after.bytes(),
            },
            b'R' => StoreCall::Read {
                track: after.byte(),
                place: after.word(),
                size: after.short(),
            },
            b'L' => StoreCall::Length {
                track: after.byte(),
            },
            b'F' => StoreCall::Flaw(Flaw {
                on: after.byte(),
                place: after.word(),
                extent: u32::from(after.short()),
            }),
            _ => return None,
        };
        *self = after;
        Some(call)
    }

    // What is called next of a deck, unless the next record is another.
    pub(crate) fn next_on_deck(&mut self) -> Option<DeckCall>
        ensures call { IfSome result (λ _. length self.new.left.now < length self.old.left.now) }
        ensures left { length self.new.left.now ≤ length self.old.left.now }
    {
        let (kind, left) = self.left.split_first()?;
        let mut after = Records { left };
        let call = match kind {
            b'b' => DeckCall::Begin,
            b'w' => DeckCall::Write {
                seed: after.word(),
                size: after.short(),
            },
            b'm' => DeckCall::Mark,
            b'z' => DeckCall::Stop,
            b'n' => DeckCall::Next {
                size: after.short(),
            },
            b'r' => DeckCall::Rewind,
            b'f' => DeckCall::Flaw(Flaw {
                on: after.byte(),
                place: after.word(),
                extent: after.word(),
            }),
            _ => return None,
        };
        *self = after;
        Some(call)
    }

    pub(crate) fn byte(&mut self) -> u8
        ensures { length self.new.left.now ≤ length self.old.left.now }
    {
        let Some((byte, left)) = self.left.split_first() else {
            return 0;
        };
        self.left = left;
        *byte
    }

    // Numbers have their high byte first.
    pub(crate) fn short(&mut self) -> u16
        ensures { length self.new.left.now ≤ length self.old.left.now }
    {
        u16::from_be_bytes([self.byte(), self.byte()])
    }

    fn word(&mut self) -> u32
        ensures { length self.new.left.now ≤ length self.old.left.now }
    {
        u32::from_be_bytes([self.byte(), self.byte(), self.byte(), self.byte()])
    }

    // A size in two bytes, and so many bytes, or as many as there are.
    fn bytes(&mut self) -> &'a [u8]
        ensures { length self.new.left.now ≤ length self.old.left.now }
    {
        let size = usize::from(self.short()).min(self.left.len());
        let (part, left) = self.left.split_at(size);
        self.left = left;
        part
    }

    fn request(&mut self) -> StoreRequest
        ensures { length self.new.left.now ≤ length self.old.left.now }
    {
        StoreRequest {
            kind: self.kind(),
            tracks: self.byte(),
            capacity: self.word(),
        }
    }

    fn kind(&mut self) -> Kind
        ensures { length self.new.left.now ≤ length self.old.left.now }
    {
        match self.byte() {
            0 => Kind::Packed,
            _ => Kind::Interval,
        }
    }

    fn preamble(&mut self) -> Preamble
        ensures { length self.new.left.now ≤ length self.old.left.now }
    {
        match self.byte() {
            0 => Preamble::Normal,
            1 => Preamble::Elongated,
            _ => Preamble::Long,
        }
    }

    fn content(&mut self) -> Content
        ensures { length self.new.left.now ≤ length self.old.left.now }
    {
        match self.byte() {
            1 => Content::Mark,
            _ => Content::Block(self.block()),
        }
    }

    fn block(&mut self) -> [u8; 512]
        ensures { length self.new.left.now ≤ length self.old.left.now }
    {
        let mut block = [0; 512];
        for byte in block.iter_mut() {
            *byte = self.byte();
        }
        block
    }
}
