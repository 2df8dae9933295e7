// Why a replay cannot go on.
use crate::place::TapePlace;
use qic24::CopyFault;

// An opening whose copy is not sound, and the first cause why.
#[derive(Clone, Copy, PartialEq, Eq, Debug)]
pub struct UnsoundOpening {
    pub place: TapePlace,
    pub cause: CopyFault,
}

// The number that is not located, where a later copy stands, and the last unsound opening since the item before.
#[derive(Clone, Copy, PartialEq, Eq, Debug)]
pub struct UnlocatedNumber {
    pub expected: u32,
    pub found: TapePlace,
    pub unsound: Option<UnsoundOpening>,
}
