// The FAST network: a pool of S-boxes and a key.
ghost use Rattle.std.specs.Prelude.{◌≡◌, ◌<◌, length};
ghost use Rattle.std.proofs.Props.{props};
ghost use Rattle.block_cipher.specs.MacKey.{mac_key_of};
ghost use Rattle.ciphers.specs.Kept.{Defined};
ghost use Rattle.ciphers.specs.Networks.{sequence_of};

use block_cipher::cmac::Cmac;
use kept::{KEPT, KeptSequence};
use pools::pool::Pool;

mod kept;
mod network;
mod wanted;

// FAST over a pool. The key is kept as its CMAC, from which every index sequence is derived. The sequences made
// last are kept too, and each holds the indices that its label defines under this key and for this pool.
#[derive(Drop)]
pub struct Fast {
    pool: Pool,
    mac: Cmac,
    kept: [KeptSequence; KEPT],
    // the place that is filled next
    next: usize,
    ghost whole: { length kept ≡ 8 },
    ghost within: { next < 8 },
    ghost defined: { Defined (mac_key_of mac) (sequence_of pool.origin) pool.radix kept } by { Prim.hlevel props },
}
