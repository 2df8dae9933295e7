// Bytes that follow no pattern, and from a seed always the same: the low ones of an xorshift of 64 bits.
ghost use Rattle.std.specs.Prelude.{◌≡◌, ◌%◌, bit_xor};
ghost use Rattle.sampling.specs.Xorshift.{first_state, next_state};

#[derive(Drop)]
pub struct Scramble {
    state: u64,
}

impl Scramble {
    pub fn new(seed: u32) -> Scramble
        ensures { result.state ≡ bit_xor first_state seed }
    {
        Scramble {
            state: 0x9E37_79B9_7F4A_7C15 ^ u64::from(seed),
        }
    }

    pub fn next_byte(&mut self) -> u8
        ensures state { self.new.state ≡ next_state self.old.state }
        ensures byte { result ≡ self.new.state % 256 }
    {
        self.state ^= self.state << 13;
        self.state ^= self.state >> 7;
        self.state ^= self.state << 17;
        (self.state & 0xFF) as u8
    }
}
