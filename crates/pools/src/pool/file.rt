// A pool from a file.
ghost use Rattle.std.specs.Prelude.{◌≡◌, ℕ, List, IfOk};
ghost use Rattle.std.specs.Option.{option_map};
ghost use Rattle.pools.specs.File.{radix_of, parts, reading};
ghost use Rattle.pools.specs.Pools.{held};
ghost use Rattle.pools.specs.declared.pool.Origin.TheVariants.{Given};

use crate::pool::tables::Tables;
use crate::pool::{Origin, Pool};
use coins::sbox::Sbox;
use faults::fault::{Cause, Fault};

// What a file begins with.
const MARK: [u8; 3] = *b"BXP";

// The version of the form.
const VERSION: [u8; 2] = [0, 1];

impl Pool {
    // Reads the pool that a file holds. Refused for the mark, version, radix or size, and then for the first
    // row that is no permutation.
    pub fn from_file(bytes: &[u8]) -> Result<Pool, Fault>
        ensures value { held result ≡ reading bytes.now }
        ensures made { IfOk result (λ p. (p.origin ≡ Given) × (p.radix ≡ radix_of bytes.now)) }
    {
        let (radix, rows) = parts(bytes).ok_or(Fault::own(Cause::PoolFile))?;
        let mut tables = Tables::new(radix);
        for (n, row) in rows.chunks_exact(usize::from(radix)).enumerate() {
            // Borrowed, since a box is large to hand on.
            let given = Sbox::from_entries(row);
            let sbox = given.as_ref().ok_or(Fault::own(Cause::PoolRow).at(n))?;
            tables.push(sbox);
        }
        Ok(tables.pool(Origin::Given))
    }
}

// The radix of a file and its rows, where the mark, the version, the radix and the size are right.
fn parts(bytes: &[u8]) -> Option<(u8, &[u8])>
    ensures { option_map {U = ℕ × List ℕ} (λ p. (p.0, p.1.now)) result ≡ parts bytes.now }
{
    let (head, rows) = bytes.split_first_chunk::<6>()?;
    if head[0] != MARK[0] || head[1] != MARK[1] || head[2] != MARK[2] {
        return None;
    }
    if head[3] != VERSION[0] || head[4] != VERSION[1] {
        return None;
    }
    let radix = head[5];
    if radix < 4 || radix > 64 || rows.len() != 256 * usize::from(radix) {
        return None;
    }
    Some((radix, rows))
}
