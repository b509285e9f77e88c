// Making the expansion of a key, and encrypting with it.
ghost use Rattle.std.specs.Prelude.{◌≡◌};
ghost use Rattle.block_cipher.specs.Aes.{cipher};
ghost use Rattle.block_cipher.specs.Counter.{counter_block};
ghost use Rattle.block_cipher.specs.Keyed.{key_of};
ghost use Rattle.block_cipher.specs.Words.{little16};

use crate::aes::Aes128;
use crate::columns::Columns;
use crate::numbers::{load, store};
use crate::rounds::{add_round_key, last_round, next_round_key, round};

// The constants of the ten rounds.
const RCON: [u8; 10] = [0x01, 0x02, 0x04, 0x08, 0x10, 0x20, 0x40, 0x80, 0x1b, 0x36];

impl Aes128 {
    // KeyExpansion: the cipher under a key.
    pub fn new(key: [u8; 16]) -> Aes128
        ensures { key_of result ≡ key }
    {
        let mut k = Columns::from(load(key));
        let mut round_keys = [k; 11];
        for (i, rcon) in RCON.iter().enumerate() {
            k = next_round_key(k, *rcon);
            round_keys[i + 1] = k;
        }
        Aes128 { round_keys }
    }

    // The encryption of a block.
    pub fn encrypt(&self, block: [u8; 16]) -> [u8; 16]
        ensures { result ≡ cipher (key_of self.now) block }
    {
        store(self.encrypt_number(load(block)))
    }

    // The same on blocks as numbers, for those who make blocks of them or go on with what is encrypted.
    pub(crate) fn encrypt_number(&self, block: u128) -> u128
        ensures { little16 result ≡ cipher (key_of self.now) (little16 block) }
    {
        let mut s = add_round_key(Columns::from(block), self.round_keys[0]);
        for k in &self.round_keys[1..10] {
            s = round(s, *k);
        }
        u128::from(last_round(s, self.round_keys[10]))
    }

    // The encryption of `iv` + i, modulo 2^128, the first byte highest: block i of counter mode.
    pub fn counter_block(&self, iv: [u8; 16], i: u128) -> [u8; 16]
        ensures { result ≡ counter_block (key_of self.now) iv i }
    {
        let counter = u128::from_be_bytes(iv).wrapping_add(i);
        store(self.encrypt_number(counter.swap_bytes()))
    }
}
