// A pool: 256 boxes of one radix, and their inverses.
ghost use Rattle.std.specs.Prelude.{◌≡◌, ◌+◌, ◌*◌, ◌≤◌, length, take};
ghost use Rattle.pools.specs.Rows.{rows_of, flat, Inside, Undone};

mod file;
mod read;
mod shuffle;
mod tables;

// Where a pool's coins came from: an index sequence takes another label for a pool from the key.
#[derive(Clone, Copy, PartialEq, Eq, Debug)]
pub enum Origin {
    // given bytes, or a file
    Given,
    // the key
    Key,
}

// The boxes and their inverses, a table each. Row n begins at place 2 n times the radix, and holds its box twice,
// so that a sum of two symbols finds its image with no remainder taken. `Tables::pool` is where each pool is made.
#[derive(Drop)]
pub struct Pool {
    origin: Origin,
    radix: u8,
    forward: [u8; 32768],
    inverse: [u8; 32768],
    ghost least: { 4 ≤ radix },
    ghost most: { radix ≤ 64 },
    ghost whole: { length forward ≡ 32768 },
    ghost whole_inverse: { length inverse ≡ 32768 },
    ghost doubled: { take (256 * (radix + radix)) forward ≡ flat (rows_of radix 256 forward) },
    ghost doubled_inverse: { take (256 * (radix + radix)) inverse ≡ flat (rows_of radix 256 inverse) },
    ghost inside: { Inside radix 256 (rows_of radix 256 forward) },
    ghost inside_inverse: { Inside radix 256 (rows_of radix 256 inverse) },
    ghost there: { Undone radix 256 (rows_of radix 256 forward) (rows_of radix 256 inverse) },
    ghost back: { Undone radix 256 (rows_of radix 256 inverse) (rows_of radix 256 forward) },
}
