// Making the subkeys of a key, and tags with them.
ghost use Rattle.std.specs.Prelude.{◌≡◌, ◌<◌, ◌≤◌, length};
ghost use Rattle.block_cipher.specs.Cmac.{doubled, padded, last_block, cmac};
ghost use Rattle.block_cipher.specs.Counter.{number, bytes16};
ghost use Rattle.block_cipher.specs.MacKey.{mac_key_of};
ghost use Rattle.block_cipher.specs.Words.{little16};

use crate::aes::Aes128;
use crate::cmac::Cmac;
use crate::numbers::{load, store};

impl Cmac {
    // The subkeys of a key.
    pub fn new(key: [u8; 16]) -> Cmac
        ensures { mac_key_of result ≡ key }
    {
        let cipher = Aes128::new(key);
        let k1 = double(cipher.encrypt([0; 16]));
        let k2 = double(k1);
        Cmac { cipher, k1, k2 }
    }

    // The tag of a message of any length, the empty one included.
    pub fn tag(&self, message: &[u8]) -> [u8; 16]
        ensures { result ≡ cmac (mac_key_of self.now) message.now }
    {
        let before = message.len().saturating_sub(1) / 16;
        let (blocks, _) = message.as_chunks::<16>();
        let mut chain = 0u128;
        for block in &blocks[..before] {
            chain = self.cipher.encrypt_number(chain ^ load(*block));
        }
        let last = self.last_block(&message[16 * before..]);
        store(self.cipher.encrypt_number(chain ^ last))
    }

    // The last block, complete or padded, with its subkey.
    fn last_block(&self, rest: &[u8]) -> u128
        requires { length rest.now ≤ 16 }
        ensures { little16 result ≡ last_block (mac_key_of self.now) rest.now }
    {
        match rest.first_chunk() {
            Some(block) => load(self.k1) ^ load(*block),
            None => load(self.k2) ^ load(pad(rest)),
        }
    }
}

// A 1 bit after the message's last part, and zeros.
fn pad(rest: &[u8]) -> [u8; 16]
    requires { length rest.now < 16 }
    ensures { result ≡ padded rest.now }
{
    let n = rest.len();
    let mut block = [0u8; 16];
    block[0..n].copy_from_slice(rest);
    block[n] = 0x80;
    block
}

// Twice a block, in the field that the subkeys are made in.
fn double(x: [u8; 16]) -> [u8; 16]
    ensures { result ≡ bytes16 (doubled (number x)) }
{
    let n = u128::from_be_bytes(x);
    let shifted = n << 1;
    let reduced = if n >> 127 == 0 {
        shifted
    } else {
        shifted ^ 0x87
    };
    reduced.to_be_bytes()
}
