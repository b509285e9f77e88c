// A box: a permutation of the numbers below a radix, with its inverse.
ghost use Rattle.std.specs.Prelude.{◌≡◌, ◌≤◌, length};
ghost use Rattle.coins.specs.Boxes.{Undoes};

mod given;
mod read;
mod shuffle;

// The images of the numbers below the radix, and the numbers that have them as their images. A table ends at
// the radix, and what lies past it is not used.
#[derive(Drop)]
pub struct Sbox {
    radix: u16,
    forward: [u16; 4096],
    inverse: [u16; 4096],
    ghost least: { 2 ≤ radix },
    ghost most: { radix ≤ 4096 },
    ghost whole: { length forward ≡ 4096 },
    ghost whole_inverse: { length inverse ≡ 4096 },
    ghost there: { Undoes radix forward inverse },
    ghost back: { Undoes radix inverse forward },
}

impl Sbox {
    // How many numbers the box permutes.
    pub fn radix(&self) -> u16
        ensures { result ≡ self.now.radix }
    {
        self.radix
    }
}
