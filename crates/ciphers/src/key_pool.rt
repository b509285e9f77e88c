// A pool from the key.
ghost use Rattle.std.specs.Prelude.{◌≡◌, IfOk};
ghost use Rattle.block_cipher.specs.MacKey.{mac_key_of};
ghost use Rattle.keys.specs.Derived.{cleared};
ghost use Rattle.keys.specs.KeyBits.{key_bits};
ghost use Rattle.pools.specs.Pools.{held};
ghost use Rattle.pools.specs.Shuffled.{pooling};
ghost use Rattle.pools.specs.declared.pool.Origin.TheVariants.{Key};

use block_cipher::cmac::Cmac;
use faults::fault::Fault;
use keys::key_coins::KeyCoins;
use pools::pool::{Origin, Pool};

// The pool of a radix, 4 to 64, that is shuffled by the key's own coins. The lent bytes hold the derived key
// meanwhile, and zeros in the end.
pub fn key_pool(mac: &Cmac, radix: u8, lent: &mut [u8; 32]) -> Result<Pool, Fault>
    ensures value { held result ≡ (pooling radix (key_bits (mac_key_of mac.now) radix)).answer }
    ensures made { IfOk result (λ p. (p.origin ≡ Key) × (p.radix ≡ radix)) }
    ensures cleared { lent.new ≡ cleared }
{
    let mut coins = KeyCoins::new(mac, radix, lent)?;
    Pool::shuffled(Origin::Key, &mut coins, radix)
}
