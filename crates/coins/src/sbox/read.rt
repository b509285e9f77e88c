// What a box answers.
ghost use Rattle.std.specs.Prelude.{◌≡◌};
ghost use Rattle.std.specs.List.{slice_get};
ghost use Rattle.coins.specs.Boxes.{Permutation, Undoes};
ghost use Rattle.coins.specs.Sboxes.{entries, inverses, place_of};

use crate::sbox::Sbox;

impl Sbox {
    // The images of the numbers below the radix, in their order.
    pub fn images(&self) -> &[u16]
        ensures value { result.now ≡ entries self.now }
        ensures permutes { Permutation self.now.radix result.now }
    {
        &self.forward[..usize::from(self.radix)]
    }

    // The numbers that have the numbers below the radix as their images, in their order.
    pub fn preimages(&self) -> &[u16]
        ensures value { result.now ≡ inverses self.now }
        ensures there { Undoes self.now.radix (entries self.now) result.now }
        ensures back { Undoes self.now.radix result.now (entries self.now) }
    {
        &self.inverse[..usize::from(self.radix)]
    }

    // The image of a number, where it is below the radix.
    pub fn apply(&self, x: u16) -> Option<u16>
        ensures { result ≡ slice_get (entries self.now) x }
    {
        self.images().get(usize::from(x)).copied()
    }

    // The number that has an image, where it is below the radix.
    pub fn undo(&self, y: u16) -> Option<u16>
        ensures { result ≡ place_of y (entries self.now) }
    {
        self.preimages().get(usize::from(y)).copied()
    }
}
