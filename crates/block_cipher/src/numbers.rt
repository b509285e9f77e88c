// Blocks as numbers, the first byte lowest.
ghost use Rattle.std.specs.Prelude.{◌≡◌};
ghost use Rattle.block_cipher.specs.Words.{little16};

// The number of a block.
pub(crate) fn load(block: [u8; 16]) -> u128
    ensures { little16 result ≡ block }
{
    u128::from_le_bytes(block)
}

// The block of a number. Copied by halves, which compiles to two moves; `to_le_bytes` of the
// whole number makes sixteen, and a block takes a fifth longer.
pub(crate) fn store(n: u128) -> [u8; 16]
    ensures { result ≡ little16 n }
{
    let low = ((n & 0xffff_ffff_ffff_ffff) as u64).to_le_bytes();
    let high = ((n >> 64) as u64).to_le_bytes();
    let mut block = [0u8; 16];
    block[0..8].copy_from_slice(&low);
    block[8..16].copy_from_slice(&high);
    block
}
