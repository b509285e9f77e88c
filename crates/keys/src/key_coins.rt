// Coins from the key.
ghost use Rattle.std.specs.Prelude.{◌≡◌, ◌/◌, ◌≤◌};
ghost use Rattle.block_cipher.specs.Counter.{counter_block};
ghost use Rattle.block_cipher.specs.Keyed.{key_of};

use block_cipher::aes::Aes128;

mod methods;

// The bits of 4,096 counter blocks, the highest bit of each byte first. The block that has the next coin is kept,
// so that each block is encrypted once.
#[derive(Drop)]
pub struct KeyCoins {
    aes: Aes128,
    iv: [u8; 16],
    // how many coins are taken
    taken: u32,
    block: [u8; 16],
    ghost within: { taken ≤ 524288 },
    ghost current: { block ≡ counter_block (key_of aes) iv (taken / 128) },
}
