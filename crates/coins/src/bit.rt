// The bits of bytes, the highest bit of each byte first.
ghost use Rattle.std.specs.Prelude.{◌≡◌, ◌%◌, slice_index};
ghost use Rattle.std.specs.List.{slice_get};
ghost use Rattle.coins.specs.Coins.{byte_bits, bits_of};

// The bit of a byte at a place, which is counted on from one byte to the next: 8 is the first place again.
#[inline]
pub fn bit_of(byte: u8, place: u32) -> u16
    ensures { result ≡ slice_index (byte_bits byte) (place % 8) }
{
    u16::from(byte >> (7 - place % 8) & 1)
}

// The bit at a place, where the bytes have so many.
#[inline]
pub fn bit_at(bytes: &[u8], place: u128) -> Option<u16>
    ensures { result ≡ slice_get (bits_of bytes.now) place }
{
    let count = 8 * bytes.len() as u128;
    if place >= count {
        return None;
    }
    let byte = bytes[(place / 8) as usize];
    Some(bit_of(byte, (place % 8) as u32))
}
