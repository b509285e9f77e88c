// FAST's layers over a window that moves: a layer writes one symbol past the end, and nothing is shifted.
ghost use Rattle.std.specs.Prelude.{◌≡◌, ◌+◌, ◌<◌, ◌≤◌, length, take, drop, slice_index};
ghost use Rattle.std.specs.List.{AllByRecursion};
ghost use Rattle.pools.specs.Rows.{rows_of};
ghost use Rattle.ciphers.specs.Layers.{core_encrypt, core_decrypt};
ghost use Rattle.ciphers.specs.Windows.{AtHand};

use crate::boxes::Boxes;
use crate::reach::Reach;

// The layers of all indices, the first one first. The window begins with the code, and ends with its image.
pub(crate) fn encrypt(boxes: Boxes<'_>, reach: Reach, indices: &[u8], window: &mut [u8])
    requires room { (length indices.now + reach.len ≤ length window.old) × (length indices.now ≤ 2048) }
    requires symbols { AllByRecursion (λ x. x < boxes.radix) window.old }
    ensures { take reach.len (drop (length indices.now) window.new) ≡ core_encrypt (rows_of boxes.entry.radix 256 boxes.entry.table.now) boxes.entry.radix reach.w reach.v indices.now (take reach.len window.old) }
{
    let len = reach.len;
    let mut recent = Recent {
        first: window[len - 1],
        second: window[len - 2],
        third: window[len.saturating_sub(3)],
    };
    for (k, i) in indices.iter().enumerate() {
        let behind = recent.symbol_of_three(reach.v, window, k + (len - reach.v));
        let ahead = window[k + reach.w];
        let symbol = boxes.forward_symbol(reach.w, *i, window[k], behind, ahead);
        window[k + len] = symbol;
        recent = recent.then(symbol);
    }
}

// The backward layers of all indices, the last one first. The window ends with the code, and begins with its image.
pub(crate) fn decrypt(boxes: Boxes<'_>, reach: Reach, indices: &[u8], window: &mut [u8])
    requires room { (length indices.now + reach.len ≤ length window.old) × (length indices.now ≤ 2048) }
    requires symbols { AllByRecursion (λ x. x < boxes.radix) window.old }
    ensures { take reach.len window.new ≡ core_decrypt (rows_of boxes.entry.radix 256 boxes.entry.table.now) boxes.entry.radix reach.w reach.v indices.now (take reach.len (drop (length indices.now) window.old)) }
{
    let len = reach.len;
    let end = indices.len();
    let mut recent = Recent {
        first: window[end],
        second: window[end + 1],
        third: window[end + (len - 1).min(2)],
    };
    for k in (0..end).rev() {
        let ahead = recent.symbol(reach.w, window, k + reach.w);
        let behind = window[k + (len - reach.v)];
        let symbol = boxes.backward_symbol(reach.w, indices[k], window[k + len], ahead, behind);
        window[k] = symbol;
        recent = recent.then(symbol);
    }
}

// The last three symbols that were written, the latest first. A layer waits for one that was written shortly before, so
// they stay at hand. A layer back gains nothing by the third.
#[derive(Clone, Copy)]
struct Recent {
    first: u8,
    second: u8,
    third: u8,
}

impl Recent {
    // The symbol at a place of the window, which was written so many symbols ago.
    #[inline]
    fn symbol(self, ago: usize, window: &[u8], place: usize) -> u8
        requires inside { place < length window.now }
        requires held { AtHand self ago (slice_index window.now place) }
        ensures { result ≡ slice_index window.now place }
    {
        match ago {
            1 => self.first,
            2 => self.second,
            _ => window[place],
        }
    }

    // The same, where the third is at hand too.
    #[inline]
    fn symbol_of_three(self, ago: usize, window: &[u8], place: usize) -> u8
        requires inside { place < length window.now }
        requires held { AtHand self ago (slice_index window.now place) }
        ensures { result ≡ slice_index window.now place }
    {
        if ago == 3 {
            self.third
        } else {
            self.symbol(ago, window, place)
        }
    }

    // The last three once another is written.
    #[inline]
    fn then(self, symbol: u8) -> Recent
        ensures { result ≡ record { first = symbol; second = self.first; third = self.second } }
    {
        Recent {
            first: symbol,
            second: self.first,
            third: self.second,
        }
    }
}
