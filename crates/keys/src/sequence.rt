// Index sequences: which box of a pool each layer looks into.
ghost use Rattle.std.specs.Prelude.{◌≡◌, ◌+◌, ◌-◌, ◌<◌, ◌≤◌, ◌++◌, length, take, drop};
ghost use Rattle.block_cipher.specs.Keyed.{key_of};
ghost use Rattle.block_cipher.specs.MacKey.{mac_key_of};
ghost use Rattle.keys.specs.Derived.{cleared};
ghost use Rattle.keys.specs.Sequences.{first_half, start_of, stream, pooled, layered, sized, sequence_verdict, indices_left};

use crate::derive::{derive_sequence, first_half, second_half};
use crate::encoding::SequenceList;
use crate::label::Sequence;
use crate::lent::Lent;
use alphabets::run_name::RunName;
use block_cipher::aes::Aes128;
use block_cipher::cmac::Cmac;
use faults::fault::{Cause, Fault};

// Fills a slice with the index sequence of a run, as many indices as the slice holds. The radix is 4 to 64, the
// length 2 to 32, and the slice's size a multiple of the length, from the length to 2,048. The lent bytes hold
// the derived key meanwhile, and zeros in the end.
pub fn index_sequence(
    mac: &Cmac,
    sequence: Sequence,
    radix: u8,
    len: u8,
    run: &[u8],
    lent: &mut [u8; 32],
    indices: &mut [u8],
) -> Result<(), Fault>
    ensures value { result ≡ sequence_verdict radix len run.now (length indices.old) }
    ensures after { indices.new ≡ indices_left (mac_key_of mac.now) sequence radix len run.now indices.old }
    ensures cleared { lent.new ≡ cleared }
{
    let key = Lent { bytes: lent };
    if !is_sized(radix, len, indices.len()) {
        return Err(Fault::own(Cause::Range));
    }
    let run = RunName::new(run)?;
    let list = SequenceList {
        sequence,
        radix: u16::from(radix),
        len,
        layers: indices.len() as u16,
        run,
    };
    derive_sequence(mac, &list, key.bytes);
    write_indices(key.bytes, indices);
    Ok(())
}

// Are there pools of the radix?
pub(crate) fn is_pooled(radix: u8) -> bool
    ensures { result ≡ pooled radix }
{
    matches!(radix, 4..=64)
}

// Are the radix, the length and the number of indices in range?
fn is_sized(radix: u8, len: u8, size: usize) -> bool
    ensures { result ≡ sized radix len size }
{
    is_pooled(radix) && matches!(len, 2..=32) && is_layered(len as usize, size)
}

// Are there so many layers of a length?
fn is_layered(len: usize, size: usize) -> bool
    requires { 2 ≤ len }
    ensures { result ≡ layered len size }
{
    size % len == 0 && (len..=2048).contains(&size)
}

// Writes the bytes of the counter blocks under a derived key.
fn write_indices(key: &[u8; 32], indices: &mut [u8])
    ensures { indices.new ≡ stream (first_half key.now) (start_of key.now) (length indices.old) }
{
    let aes = Aes128::new(first_half(key));
    write_stream(&aes, start_of(key), indices);
}

// The counter to start from.
fn start_of(key: &[u8; 32]) -> [u8; 16]
    ensures { result ≡ start_of key.now }
{
    let mut start = second_half(key);
    start[14..].fill(0);
    start
}

// Fills a slice with counter blocks, of which the last may be cut short. A block is made for its number.
fn write_stream(aes: &Aes128, iv: [u8; 16], out: &mut [u8])
    ensures { out.new ≡ stream (key_of aes.now) iv (length out.old) }
{
    for i in 0..out.len().div_ceil(16) {
        copy_block(aes.counter_block(iv, i as u128), 16 * i, out);
    }
}

// Copies as much of a block as there is room for from a place on.
fn copy_block(block: [u8; 16], from: usize, out: &mut [u8])
    requires { from < length out.old }
    ensures { out.new ≡ take from out.old ++ (take (length out.old - from) block ++ drop (from + 16) out.old) }
{
    let count = (out.len() - from).min(16);
    out[from..from + count].copy_from_slice(&block[..count]);
}
