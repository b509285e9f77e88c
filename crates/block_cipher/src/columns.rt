// The four columns of a state or a round key, as words: what a block is taken apart into for the rounds. From call to
// call a block goes as one number, its first byte lowest.
ghost use Rattle.std.specs.Prelude.{◌≡◌};
ghost use Rattle.block_cipher.specs.Words.{bytes_of, little16};

#[derive(Clone, Copy)]
#[repr(C)]
pub struct Columns {
    pub a: u32,
    pub b: u32,
    pub c: u32,
    pub d: u32,
}

impl From<u128> for Columns {
    ghost from_gives = { λ n s. bytes_of s ≡ little16 n };

    fn from(n: u128) -> Columns {
        Columns {
            a: (n & 0xffff_ffff) as u32,
            b: ((n >> 32) & 0xffff_ffff) as u32,
            c: ((n >> 64) & 0xffff_ffff) as u32,
            d: ((n >> 96) & 0xffff_ffff) as u32,
        }
    }
}

impl From<Columns> for u128 {
    ghost from_gives = { λ s n. little16 n ≡ bytes_of s };

    fn from(s: Columns) -> u128 {
        u128::from(s.a)
            + (u128::from(s.b) << 32)
            + (u128::from(s.c) << 64)
            + (u128::from(s.d) << 96)
    }
}
