// How many rounds a radix and a length ask for.
ghost use Rattle.std.specs.Prelude.{◌≡◌, ◌≤◌};
ghost use Rattle.formats.specs.LeastRounds.{column_below, column_above, tabled};
ghost use Rattle.formats.specs.Forms.{default_rounds, least_of};

use alphabets::alphabet::Alphabet;

// A row for each radix from 4 to 16; a column for each length from 2 to 10, and for 12, 16 and 32.
const ROWS: [[u8; 12]; 13] = [
    [165, 135, 117, 105, 96, 89, 83, 78, 74, 68, 59, 52],
    [131, 107, 93, 83, 76, 70, 66, 62, 59, 54, 48, 46],
    [113, 92, 80, 72, 65, 61, 57, 54, 51, 46, 44, 43],
    [102, 83, 72, 64, 59, 55, 51, 48, 46, 43, 41, 41],
    [94, 76, 66, 59, 54, 50, 47, 44, 42, 41, 39, 39],
    [88, 72, 62, 56, 51, 47, 44, 42, 40, 39, 38, 38],
    [83, 68, 59, 53, 48, 45, 42, 39, 39, 38, 37, 37],
    [79, 65, 56, 50, 46, 43, 40, 38, 38, 37, 36, 37],
    [76, 62, 54, 48, 44, 41, 38, 37, 37, 36, 35, 36],
    [73, 60, 52, 47, 43, 39, 37, 36, 36, 35, 34, 36],
    [71, 58, 50, 45, 41, 38, 36, 36, 35, 34, 34, 35],
    [69, 57, 49, 44, 40, 37, 36, 35, 34, 34, 33, 35],
    [67, 55, 48, 43, 39, 36, 35, 34, 34, 33, 33, 35],
];

// The least number of rounds, for a radix from 4 on and a length from 2 to 32. A radix above 16 has the row of
// 16, and a length between two columns the larger of their two entries.
#[tactic(auto, using(crate::proofs::Columns::tabled_by), unfolding(crate::specs::LeastRounds::tabled))]
pub fn least_rounds(radix: u8, len: u8) -> Option<u8>
    ensures { result ≡ tabled radix len }
{
    if radix < 4 || !(2..=32).contains(&len) {
        return None;
    }
    let row = &ROWS[usize::from(radix.min(16) - 4)];
    Some(row[column_below(len)].max(row[column_above(len)]))
}

// The least number of rounds for an alphabet and a length, and 0 where the table has none, as at length 1.
#[tactic(auto, unfolding(crate::specs::LeastRounds::least))]
pub fn fewest_rounds(alphabet: Alphabet, len: u8) -> u16
    ensures { result ≡ least_of alphabet len }
{
    u16::from(least_rounds(alphabet.radix(), len).unwrap_or(0))
}

// The rounds of a shape for which none are named: the least, but that is a choice of its own.
pub fn default_rounds(alphabet: Alphabet, len: u8) -> u16
    ensures { result ≡ default_rounds alphabet len }
{
    fewest_rounds(alphabet, len)
}

// The last column whose length is not above `len`. A match, and no search: each mask makes its shape again.
#[tactic(auto, using(crate::proofs::Columns::below_by_lem))]
fn column_below(len: u8) -> usize
    requires { (2 ≤ len) × (len ≤ 32) }
    ensures { (result ≡ column_below len) × (result ≤ 11) }
{
    match len {
        0..=11 => (len.min(10) - 2) as usize,
        12..=15 => 9,
        16..=31 => 10,
        _ => 11,
    }
}

// The first column whose length is not below `len`. A match, and no search: each mask makes its shape again.
#[tactic(auto, using(crate::proofs::Columns::above_by_lem))]
fn column_above(len: u8) -> usize
    requires { (2 ≤ len) × (len ≤ 32) }
    ensures { (result ≡ column_above len) × (result ≤ 11) }
{
    match len {
        0..=10 => (len - 2) as usize,
        11..=12 => 9,
        13..=16 => 10,
        _ => 11,
    }
}
