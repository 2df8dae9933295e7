// The item that is still unchecked.
ghost use Rattle.std.specs.Prelude.{◌≡◌};
ghost use Rattle.qic24.specs.declared.item.Content.TheVariants.{Block};

use crate::measures::BLOCK;
use qic24::Content;

// What it holds: a mark, or a block. No Content, since a deck keeps the bytes in a plain struct of its own.
#[derive(Clone, Copy)]
pub enum Pending {
    Mark,
    Block(PendingBlock),
}

// The bytes of a block.
#[derive(Clone, Copy)]
pub struct PendingBlock {
    bytes: [u8; BLOCK],
}

impl PendingBlock {
    pub(crate) fn new(bytes: &[u8; BLOCK]) -> PendingBlock
        ensures { result.bytes ≡ bytes.now }
    {
        PendingBlock { bytes: *bytes }
    }

    pub(crate) fn content(&self) -> Content
        ensures { result ≡ Block self.now.bytes }
    {
        Content::Block(self.bytes)
    }
}

impl From<&Content> for Pending {
    ghost use Rattle.deck.specs.Phases.{pending_content};

    ghost from_gives = { λ content pending. pending_content pending ≡ content.now };

    fn from(content: &Content) -> Pending {
        match content {
            Content::Mark => Pending::Mark,
            Content::Block(bytes) => Pending::Block(PendingBlock::new(bytes)),
        }
    }
}

impl From<&Pending> for Content {
    ghost use Rattle.deck.specs.Phases.{pending_content};

    ghost from_gives = { λ pending content. content ≡ pending_content pending.now };

    fn from(pending: &Pending) -> Content {
        match pending {
            Pending::Mark => Content::Mark,
            Pending::Block(block) => block.content(),
        }
    }
}
