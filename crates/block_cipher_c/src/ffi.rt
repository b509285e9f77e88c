// The cipher for callers in C or Rust, from a static library. Blocks and keys cross as a struct of sixteen bytes.
ghost use Rattle.std.specs.Prelude.{◌≡◌};
ghost use Rattle.block_cipher.specs.Aes.{cipher};
ghost use Rattle.block_cipher.specs.Cmac.{cmac};
ghost use Rattle.block_cipher.specs.Counter.{counter_block};
ghost use Rattle.block_cipher.specs.Keyed.{key_of};
ghost use Rattle.block_cipher.specs.MacKey.{mac_key_of};

use block_cipher::aes::Aes128;
use block_cipher::cmac::Cmac;

#[derive(Clone, Copy)]
#[repr(C)]
pub struct Block {
    pub bytes: [u8; 16],
}

#[unsafe(no_mangle)]
pub extern "C" fn block_cipher_aes128(key: &Block) -> Aes128
    ensures { key_of result ≡ key.now.bytes }
{
    Aes128::new(key.bytes)
}

#[unsafe(no_mangle)]
pub extern "C" fn block_cipher_encrypt(aes: &Aes128, block: &mut Block)
    ensures { block.new.bytes ≡ cipher (key_of aes.now) block.old.bytes }
{
    block.bytes = aes.encrypt(block.bytes);
}

#[unsafe(no_mangle)]
pub extern "C" fn block_cipher_counter(aes: &Aes128, iv: &Block, i: u64, block: &mut Block)
    ensures { block.new.bytes ≡ counter_block (key_of aes.now) iv.now.bytes i }
{
    block.bytes = aes.counter_block(iv.bytes, u128::from(i));
}

#[unsafe(no_mangle)]
pub extern "C" fn block_cipher_cmac(key: &Block) -> Cmac
    ensures { mac_key_of result ≡ key.now.bytes }
{
    Cmac::new(key.bytes)
}

#[unsafe(no_mangle)]
pub extern "C" fn block_cipher_tag(mac: &Cmac, message: &[u8], tag: &mut Block)
    ensures { tag.new.bytes ≡ cmac (mac_key_of mac.now) message.now }
{
    tag.bytes = mac.tag(message);
}
