// The exported calls of the network. Keys and run names cross as structs of bytes, and the cause of a refusal as its
// number.
ghost use Rattle.std.specs.Prelude.{◌≡◌, length};
ghost use Rattle.block_cipher.specs.MacKey.{mac_key_of};
ghost use Rattle.ciphers.specs.Networks.{networked};
ghost use Rattle.keys.specs.Sequences.{sequence_verdict, indices_left};
ghost use Rattle.keys.specs.declared.label.Sequence.TheVariants.{KeyPool};
ghost use Rattle.network_c.specs.Exports.{plan_of, planned, masked, nonzero, SwappedBy, Unmasked, Walked};
ghost use Rattle.network_c.specs.Under.{number_in};

use crate::ready::{Ready, number, way};
use block_cipher::cmac::Cmac;
use ciphers::fast::Fast;
use ciphers::way::Way;
use faults::fault::Fault;
use formats::shape::Shape;
use keys::label::Sequence;
use keys::sequence::index_sequence;
use openings::network::open_network;

// A key of sixteen bytes.
#[derive(Clone, Copy)]
#[repr(C)]
pub struct Key {
    pub bytes: [u8; 16],
}

// A run name of eight bytes.
#[derive(Clone, Copy)]
#[repr(C)]
pub struct Run {
    pub name: [u8; 8],
}

// Masks a code of symbols where it stands, under one run after the other, by the network over the pool from a key.
// The answer is 0, or the number of the cause at which it stopped.
#[unsafe(no_mangle)]
pub extern "C" fn network_mask(key: &Key, shape: &[u8], runs: &[Run], code: &mut [u8]) -> u8
    ensures value { result ≡ number_in (masked (planned key.now.bytes shape.now) runs.now code.old).answer }
    ensures after { code.new ≡ (masked (planned key.now.bytes shape.now) runs.now code.old).code }
{
    number(swap_network(key.bytes, shape, Way::Forward, runs, code))
}

// Unmasks it.
#[unsafe(no_mangle)]
pub extern "C" fn network_unmask(key: &Key, shape: &[u8], runs: &[Run], code: &mut [u8]) -> u8
    ensures { Unmasked (planned key.now.bytes shape.now) runs.now code.old result code.new }
{
    number(swap_network(key.bytes, shape, Way::Backward, runs, code))
}

// Masks it, or unmasks it, by a walk over the network to codes that do not begin with 0.
#[unsafe(no_mangle)]
pub extern "C" fn network_walk(
    key: &Key,
    shape: &[u8],
    back: bool,
    runs: &[Run],
    code: &mut [u8],
) -> u8
    ensures { Walked back (planned key.now.bytes shape.now) runs.now code.old result code.new }
{
    number(walk_network(key.bytes, shape, way(back), runs, code))
}

// Fills a slice with the index sequence of a run over the pool from the key.
#[unsafe(no_mangle)]
pub extern "C" fn network_indices(
    mac: &Cmac,
    radix: u8,
    len: u8,
    run: &Run,
    indices: &mut [u8],
) -> u8
    ensures value { result ≡ number_in (sequence_verdict radix len run.now.name (length indices.old)) }
    ensures after { indices.new ≡ indices_left (mac_key_of mac.now) KeyPool radix len run.now.name indices.old }
{
    let mut lent = [0u8; 32];
    number(index_sequence(
        mac,
        Sequence::KeyPool,
        radix,
        len,
        &run.name,
        &mut lent,
        indices,
    ))
}

// Swaps a code by the network, one way or the other. No code is touched where no network is made.
fn swap_network(
    key: [u8; 16],
    shape: &[u8],
    way: Way,
    runs: &[Run],
    code: &mut [u8],
) -> Result<(), Fault>
    ensures { SwappedBy networked way (planned key shape.now) runs.now code.old (number_in result) code.new }
{
    make(key, shape)?.swap(way, runs, code)
}

// The same by the walk over it.
fn walk_network(
    key: [u8; 16],
    shape: &[u8],
    way: Way,
    runs: &[Run],
    code: &mut [u8],
) -> Result<(), Fault>
    ensures { SwappedBy nonzero way (planned key shape.now) runs.now code.old (number_in result) code.new }
{
    make(key, shape)?.walked().swap(way, runs, code)
}

// The network over the pool from a key, for the shape that a text spells.
fn make(key: [u8; 16], text: &[u8]) -> Result<Ready<Fast>, Fault>
    ensures { plan_of result ≡ planned key text.now }
{
    let shape = Shape::read(text)?;
    let cipher = open_network(shape.alphabet(), key)?;
    Ok(Ready { cipher, shape })
}
