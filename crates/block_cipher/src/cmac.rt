// CMAC's subkeys, made once and used for many messages.
ghost use Rattle.std.specs.Prelude.{◌≡◌};
ghost use Rattle.block_cipher.specs.Cmac.{subkey1, subkey2};
ghost use Rattle.block_cipher.specs.Keyed.{key_of};

use crate::aes::Aes128;

mod methods;

// CMAC with AES-128 under one key: the cipher and the two subkeys.
#[derive(Clone, Copy)]
#[repr(C)]
pub struct Cmac {
    cipher: Aes128,
    k1: [u8; 16],
    k2: [u8; 16],
    ghost first: { k1 ≡ subkey1 (key_of cipher) },
    ghost second: { k2 ≡ subkey2 (key_of cipher) },
}
