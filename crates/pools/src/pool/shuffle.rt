// A pool from coins.
ghost use Rattle.std.specs.Prelude.{◌≡◌, IfOk};
ghost use Rattle.coins.specs.Coins.{after};
ghost use Rattle.pools.specs.Pools.{held};
ghost use Rattle.pools.specs.Shuffled.{pooling};
ghost use Rattle.pools.specs.declared.pool.Origin.TheVariants.{Given};

use crate::pool::tables::Tables;
use crate::pool::{Origin, Pool};
use coins::sbox::Sbox;
use coins::source::Coins;
use faults::fault::{Cause, Fault};

impl Pool {
    // Makes a pool of a radix, 4 to 64, from given coins. Where the coins are too few, those of finished tries
    // stay taken, and the refusal's place is the number of the box.
    pub fn from_coins<C: Coins>(coins: &mut C, radix: u8) -> Result<Pool, Fault>
        ensures value { held result ≡ (pooling radix (C.waiting coins.old)).answer }
        ensures after { C.waiting coins.new ≡ after (pooling radix (C.waiting coins.old)) (C.waiting coins.old) }
        ensures made { IfOk result (λ p. (p.origin ≡ Given) × (p.radix ≡ radix)) }
    {
        Pool::shuffled(Origin::Given, coins, radix)
    }

    // The same, for coins of any origin.
    pub fn shuffled<C: Coins>(origin: Origin, coins: &mut C, radix: u8) -> Result<Pool, Fault>
        ensures value { held result ≡ (pooling radix (C.waiting coins.old)).answer }
        ensures after { C.waiting coins.new ≡ after (pooling radix (C.waiting coins.old)) (C.waiting coins.old) }
        ensures made { IfOk result (λ p. (p.origin ≡ origin) × (p.radix ≡ radix)) }
    {
        if radix < 4 || radix > 64 {
            return Err(Fault::own(Cause::Range));
        }
        // A loop here and one in `from_file`: one over both would need a trait of where boxes come from.
        let mut tables = Tables::new(radix);
        for n in 0..256 {
            // Borrowed, since a box is large to hand on.
            let drawn = Sbox::shuffled(coins, u16::from(radix));
            let (sbox, _) = drawn.as_ref().map_err(|fault| fault.passed_up().at(n))?;
            tables.push(sbox);
        }
        Ok(tables.pool(origin))
    }
}
