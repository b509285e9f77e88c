// Making a source of coins from the key, and taking coins from it.
ghost use Rattle.std.specs.Prelude.{◌≡◌, ◌+◌, ◌/◌, ◌<◌, ◌≤◌, ◌∷◌, take, drop, slice_index};
ghost use Rattle.block_cipher.specs.Counter.{counter_block};
ghost use Rattle.block_cipher.specs.Keyed.{key_of};
ghost use Rattle.block_cipher.specs.MacKey.{mac_key_of};
ghost use Rattle.coins.specs.Coins.{number, bits_of};
ghost use Rattle.keys.specs.Derived.{cleared};
ghost use Rattle.keys.specs.KeyBits.{remaining, coins_of, coins_for};

use crate::derive::{derive_pool, first_half, second_half};
use crate::key_coins::KeyCoins;
use crate::lent::Lent;
use crate::sequence::is_pooled;
use block_cipher::aes::Aes128;
use block_cipher::cmac::Cmac;
use coins::bit::bit_of;
use coins::source::Coins;
use faults::fault::{Cause, Fault};

// How many coins there are: the bits of 4,096 blocks.
const ALL: u32 = 4096 * 128;

impl KeyCoins {
    // The coins for the pool of a radix, which is 4 to 64. The lent bytes hold the derived key meanwhile, and
    // zeros in the end.
    pub fn new(mac: &Cmac, radix: u8, lent: &mut [u8; 32]) -> Result<KeyCoins, Fault>
        ensures value { coins_of result ≡ coins_for (mac_key_of mac.now) radix }
        ensures cleared { lent.new ≡ cleared }
    {
        let key = Lent { bytes: lent };
        if !is_pooled(radix) {
            return Err(Fault::own(Cause::Range));
        }
        derive_pool(mac, radix, key.bytes);
        let aes = Aes128::new(first_half(key.bytes));
        let iv = second_half(key.bytes);
        let block = aes.counter_block(iv, 0);
        Ok(KeyCoins {
            aes,
            iv,
            taken: 0,
            block,
        })
    }

    // Takes the next coins, and answers the number that they form.
    fn next_bits(&mut self, count: u32) -> u16
        requires fits { count ≤ 16 }
        requires within { self.old.taken + count ≤ 524288 }
        ensures value { result ≡ number (take count (remaining self.old)) }
        ensures after { remaining self.new ≡ drop count (remaining self.old) }
    {
        let mut number = 0u16;
        for _i in 0..count {
            number = 2 * number + self.next_bit();
        }
        number
    }

    // Takes the next coin.
    fn next_bit(&mut self) -> u16
        requires { self.old.taken < 524288 }
        ensures value { remaining self.old ≡ result ∷ remaining self.new }
        ensures below { result < 2 }
        ensures one { self.new.taken ≡ self.old.taken + 1 }
    {
        let place = self.taken % 128;
        let bit = bit_of(self.block[(place / 8) as usize], place);
        let taken = self.taken + 1;
        let block = self.block_at(taken);
        self.taken = taken;
        self.block = block;
        bit
    }

    // The block that has the next coin once so many are taken.
    fn block_at(&self, taken: u32) -> [u8; 16]
        requires { taken ≡ self.now.taken + 1 }
        ensures { result ≡ counter_block (key_of self.now.aes) self.now.iv (taken / 128) }
    {
        if taken % 128 == 0 {
            return self.aes.counter_block(self.iv, u128::from(taken / 128));
        }
        self.block
    }
}

impl Coins for KeyCoins {
    ghost waiting = { remaining };

    fn take(&mut self, count: u32) -> Result<u16, Fault> {
        if count < 1 || count > 16 {
            return Err(Fault::own(Cause::Range));
        }
        if self.taken + count > ALL {
            return Err(Fault::own(Cause::CoinsShort));
        }
        Ok(self.next_bits(count))
    }
}
