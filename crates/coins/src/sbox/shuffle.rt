// A box from coins: shuffled by drawn swaps.
ghost use Rattle.std.specs.Prelude.{◌≡◌, ◌-◌, ◌<◌, ◌≤◌, IfOk, OnOk};
ghost use Rattle.coins.specs.Boxes.{swapped, swaps, making, MadeIn};
ghost use Rattle.coins.specs.Coins.{Bits, after, counted};
ghost use Rattle.coins.specs.Sboxes.{entries, boxed, unmoved};

use crate::draw::draw_below;
use crate::sbox::Sbox;
use crate::source::Coins;
use faults::fault::{Cause, Fault};

impl Sbox {
    // Makes a box of a radix, 2 to 4,096, from coins, and answers it with the number of coins taken. Where the
    // coins are too few, those of finished tries stay taken.
    pub fn shuffled<C: Coins>(coins: &mut C, radix: u16) -> Result<(Sbox, u128), Fault>
        ensures value { boxed result ≡ counted (making radix (C.waiting coins.old)) }
        ensures after { C.waiting coins.new ≡ after (making radix (C.waiting coins.old)) (C.waiting coins.old) }
        ensures radix { IfOk result (λ drawn. drawn.0.radix ≡ radix) }
    {
        // First of all, since a box is large to hand on in an `Option`.
        if radix < 2 || radix > 4096 {
            return Err(Fault::own(Cause::Range));
        }
        let mut drawn = (Sbox::unmoved(radix), 0);
        drawn.1 = drawn.0.shuffle(coins)?;
        Ok(drawn)
    }

    // The box of a radix that leaves each number where it is.
    fn unmoved(radix: u16) -> Sbox
        requires least { 2 ≤ radix }
        requires most { radix ≤ 4096 }
        ensures value { Some (entries result) ≡ unmoved radix }
        ensures radix { result.radix ≡ radix }
    {
        let mut forward = [0u16; 4096];
        // Over the numbers themselves: each is its own image.
        for x in 0..radix {
            forward[usize::from(x)] = x;
        }
        Sbox {
            radix,
            forward,
            inverse: forward,
        }
    }

    // Swaps the image of each number, from the last down to the second, with that of one that a draw finds at or
    // before it. Answers how many coins that took. A draw that finds too few coins is passed up.
    fn shuffle<C: Coins>(&mut self, coins: &mut C) -> Result<u128, Fault>
        ensures value { MadeIn (entries self.new) (swaps (self.old.radix - 1) (entries self.old) (C.waiting coins.old)) result }
        ensures after { C.waiting coins.new ≡ after (swaps (self.old.radix - 1) (entries self.old) (C.waiting coins.old)) (C.waiting coins.old) }
        ensures bits { OnOk result (Bits (C.waiting coins.old)) }
        ensures radix { self.new.radix ≡ self.old.radix }
    {
        let mut taken = 0u128;
        // Over the numbers themselves: each swap names two places of one table.
        for i in (1..self.radix).rev() {
            let (j, count) = draw_below(coins, i + 1).map_err(Fault::passed_up)?;
            self.swap(i, j);
            taken += count;
        }
        Ok(taken)
    }

    // Swaps the images of two numbers.
    fn swap(&mut self, i: u16, j: u16)
        requires first { i < self.old.radix }
        requires second { j < self.old.radix }
        ensures value { entries self.new ≡ swapped (entries self.old) i j }
        ensures radix { self.new.radix ≡ self.old.radix }
    {
        let (i, j) = (usize::from(i), usize::from(j));
        let (y, z) = (self.forward[i], self.forward[j]);
        self.forward.swap(i, j);
        self.inverse.swap(usize::from(y), usize::from(z));
    }
}
