// Coins from given bytes.
ghost use Rattle.std.specs.Prelude.{◌≡◌, ◌*◌, ◌^◌, ◌<◌, ◌≤◌, if◌then◌else◌, nat_le, length, take};
ghost use Rattle.coins.specs.Coins.{number, bits_of, bits_from};

use crate::bit::bit_at;
use crate::source::Coins;
use faults::fault::{Cause, Fault};

// The coins that bytes hold, the highest bit of each byte first.
#[derive(Drop)]
pub struct ByteCoins<'a> {
    bytes: &'a [u8],
    // how many bits are taken
    pos: u128,
    ghost short: { length bytes.now < 2 ^ 64 },
    ghost within: { pos ≤ 8 * length bytes.now },
}

impl<'a> ByteCoins<'a> {
    // All the coins of the bytes.
    pub fn new(bytes: &'a [u8]) -> ByteCoins<'a>
        ensures { bits_from result.pos result.bytes.now ≡ bits_of bytes.now }
    {
        ByteCoins { bytes, pos: 0 }
    }
}

impl<'a> Coins for ByteCoins<'a> {
    ghost waiting = { λ s. bits_from s.pos s.bytes.now };

    fn take(&mut self, count: u32) -> Result<u16, Fault> {
        if count < 1 || count > 16 {
            return Err(Fault::own(Cause::Range));
        }
        let number = number_at(self.bytes, self.pos, count).ok_or(Fault::own(Cause::CoinsShort))?;
        self.pos += u128::from(count);
        Ok(number)
    }
}

// The number that the `count` bits from `from` on form, where there are so many. The coins of a key have a loop of
// their own, which goes on from block to block.
fn number_at(bytes: &[u8], from: u128, count: u32) -> Option<u16>
    requires fits { count ≤ 16 }
    requires within { from ≤ 8 * length bytes.now }
    ensures { let bits = bits_from from bytes.now in result ≡ (if nat_le count (length bits) then Some (number (take count bits)) else None) }
{
    let mut number = 0u16;
    for place in from..from + u128::from(count) {
        number = 2 * number + bit_at(bytes, place)?;
    }
    Some(number)
}
