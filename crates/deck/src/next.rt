// What next hands out.

#[derive(Clone, Copy, PartialEq, Eq, Debug)]
pub enum Next {
    // The block of this number; its bytes are in the buffer.
    Block { number: u32 },
    Mark { number: u32 },
    // Nothing is left; whether the number after the expected one was passed over.
    End { passed: bool },
}
