// A box of given entries, where they are a permutation.
ghost use Rattle.std.specs.Prelude.{◌≡◌};
ghost use Rattle.std.specs.Option.{option_map};
ghost use Rattle.coins.specs.Boxes.{permutes};
ghost use Rattle.coins.specs.Sboxes.{entries as entries_of, given};

use crate::sbox::Sbox;

impl Sbox {
    // The box of given entries: 2 to 4,096 of them, each below their count, and none twice.
    pub fn from_entries(entries: &[u8]) -> Option<Sbox>
        ensures { option_map entries_of result ≡ given entries.now }
    {
        if entries.len() < 2 || entries.len() > 4096 || !is_permutation(entries) {
            return None;
        }
        let mut forward = [0u16; 4096];
        let mut inverse = [0u16; 4096];
        for (x, image) in entries.iter().enumerate() {
            forward[x] = u16::from(*image);
            inverse[usize::from(*image)] = x as u16;
        }
        Some(Sbox {
            radix: entries.len() as u16,
            forward,
            inverse,
        })
    }
}

// Is each entry below their count, and none twice?
fn is_permutation(table: &[u8]) -> bool
    ensures { result ≡ permutes table.now }
{
    let mut rest = table;
    while let Some((first, others)) = rest.split_first() {
        if usize::from(*first) >= table.len() || others.contains(first) {
            return false;
        }
        rest = others;
    }
    true
}
