// Derived keys, written into bytes that the caller lends.
ghost use Rattle.std.specs.Prelude.{◌≡◌, ◌++◌};
ghost use Rattle.block_cipher.specs.MacKey.{mac_key_of};
ghost use Rattle.keys.specs.Derived.{derived_key};
ghost use Rattle.keys.specs.Encodings.{of_pool};
ghost use Rattle.keys.specs.Listed.{listed};
ghost use Rattle.keys.specs.Sequences.{first_half, second_half};

use crate::encoding::{SequenceList, encode_pool};
use block_cipher::cmac::Cmac;

// The derived key of an index sequence.
pub(crate) fn derive_sequence(mac: &Cmac, list: &SequenceList<'_>, key: &mut [u8; 32])
    ensures { key.new ≡ derived_key (mac_key_of mac.now) (listed list.now) }
{
    let first = list.encode(0);
    let second = list.encode(1);
    join(mac.tag(first.as_slice()), mac.tag(second.as_slice()), key);
}

// The derived key of the pool of a radix. Like the one above, but the two kinds of lists are encoded in two types.
pub(crate) fn derive_pool(mac: &Cmac, radix: u8, key: &mut [u8; 32])
    ensures { key.new ≡ derived_key (mac_key_of mac.now) (of_pool radix) }
{
    let first = encode_pool(0, u16::from(radix));
    let second = encode_pool(1, u16::from(radix));
    join(mac.tag(&first), mac.tag(&second), key);
}

// The half of a derived key that is an AES key.
pub(crate) fn first_half(key: &[u8; 32]) -> [u8; 16]
    ensures { result ≡ first_half key.now }
{
    *key.first_chunk().unwrap()
}

// The half that is a counter to start from.
pub(crate) fn second_half(key: &[u8; 32]) -> [u8; 16]
    ensures { result ≡ second_half key.now }
{
    *key.last_chunk().unwrap()
}

// Writes two tags one after the other.
fn join(first: [u8; 16], second: [u8; 16], key: &mut [u8; 32])
    ensures { key.new ≡ first ++ second }
{
    key[..16].copy_from_slice(&first);
    key[16..].copy_from_slice(&second);
}
