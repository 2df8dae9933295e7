// FNV-1a of 64 bits.
ghost use Rattle.std.specs.Prelude.{◌≡◌, fold};
ghost use Rattle.sampling.specs.Fnv.{empty_hash, next_hash};

// The hash of no bytes.
pub const EMPTY: u64 = 0xCBF2_9CE4_8422_2325;

const PRIME: u64 = 0x0000_0100_0000_01B3;

pub fn hash_of(bytes: &[u8]) -> u64
    ensures { result ≡ fold next_hash empty_hash bytes.now }
{
    hash_on(EMPTY, bytes)
}

// The hash of more bytes, from the hash of those before.
pub fn hash_on(before: u64, bytes: &[u8]) -> u64
    ensures { result ≡ fold next_hash before bytes.now }
{
    let mut hash = before;
    for byte in bytes {
        hash = (hash ^ u64::from(*byte)).wrapping_mul(PRIME);
    }
    hash
}
