// A key's expansion, made once and used for many blocks.
ghost use Rattle.std.specs.Prelude.{◌≡◌, [], map, slice_index_or};
ghost use Rattle.block_cipher.specs.Aes.{key_expansion};
ghost use Rattle.block_cipher.specs.Words.{bytes_of};

use crate::columns::Columns;

mod methods;

// AES-128 under one key: the key and the ten round keys that follow from it.
#[derive(Clone, Copy)]
#[repr(C)]
pub struct Aes128 {
    round_keys: [Columns; 11],
    ghost expanded: { map bytes_of round_keys ≡ key_expansion (slice_index_or (map bytes_of round_keys) 0 []) },
}
