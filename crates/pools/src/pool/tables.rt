// The two tables of a pool while they fill up, and the pool that they make.
ghost use Rattle.std.specs.Prelude.{◌≡◌, [], ◌∷◌, ◌++◌, ◌+◌, ◌<◌, ◌≤◌, length};
ghost use Rattle.std.specs.List.{AllByRecursion};
ghost use Rattle.coins.specs.Sboxes.{entries as entries_of};
ghost use Rattle.pools.specs.Pools.{boxes};
ghost use Rattle.pools.specs.Rows.{rows_of, written, Filled};

use crate::pool::{Origin, Pool};
use coins::sbox::Sbox;

// Some boxes of one radix and their inverses, a table each: the first rows of a pool's tables.
#[derive(Drop)]
pub struct Tables {
    radix: u8,
    // how many boxes there are
    count: usize,
    forward: [u8; 32768],
    inverse: [u8; 32768],
    ghost least: { 4 ≤ radix },
    ghost most: { radix ≤ 64 },
    ghost whole: { length forward ≡ 32768 },
    ghost whole_inverse: { length inverse ≡ 32768 },
    ghost filled: { Filled radix count forward inverse },
}

impl Tables {
    // Tables with no box yet.
    pub fn new(radix: u8) -> Tables
        requires least { 4 ≤ radix }
        requires most { radix ≤ 64 }
        ensures { (result.radix ≡ radix) × (result.count ≡ 0) }
    {
        Tables {
            radix,
            count: 0,
            forward: [0; 32768],
            inverse: [0; 32768],
        }
    }

    // Writes a box and its inverse as the next rows.
    pub fn push(&mut self, sbox: &Sbox)
        requires room { self.old.count < 256 }
        requires radix { sbox.now.radix ≡ self.old.radix }
        ensures rows { rows_of self.new.radix self.new.count self.new.forward ≡ rows_of self.old.radix self.old.count self.old.forward ++ entries_of sbox.now ∷ [] }
        ensures same { self.new.radix ≡ self.old.radix }
        ensures more { self.new.count ≡ self.old.count + 1 }
    {
        write_row(self.count, sbox.images(), &mut self.forward);
        write_row(self.count, sbox.preimages(), &mut self.inverse);
        self.count += 1;
    }

    // The pool of 256 boxes.
    pub fn pool(self, origin: Origin) -> Pool
        requires { self.count ≡ 256 }
        ensures boxes { boxes result ≡ rows_of self.radix 256 self.forward }
        ensures made { (result.origin ≡ origin) × (result.radix ≡ self.radix) }
    {
        let Tables {
            radix,
            count: _,
            forward,
            inverse,
        } = self;
        Pool {
            origin,
            radix,
            forward,
            inverse,
        }
    }
}

// Writes row n of a table.
fn write_row(n: usize, entries: &[u16], table: &mut [u8; 32768])
    requires row { n < 256 }
    requires most { length entries.now ≤ 64 }
    requires bytes { AllByRecursion (λ x. x < 256) entries.now }
    ensures { table.new ≡ written (length entries.now) n table.old entries.now }
{
    let width = entries.len() + entries.len();
    write_twice(entries, &mut table[n * width..n * width + width]);
}

// Writes entries into a row, and once more after them.
fn write_twice(entries: &[u16], row: &mut [u8])
    requires bytes { AllByRecursion (λ x. x < 256) entries.now }
    requires whole { length row.old ≡ length entries.now + length entries.now }
    ensures { row.new ≡ entries.now ++ entries.now }
{
    // By the place: each entry is written at two.
    let radix = entries.len();
    for (i, entry) in entries.iter().enumerate() {
        row[i] = *entry as u8;
        row[radix + i] = *entry as u8;
    }
}
