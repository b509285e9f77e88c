// Two ciphers side by side: the first of them that takes a shape swaps its codes.
ghost use Rattle.std.specs.Prelude.{◌≡◌};
ghost use Rattle.formats.specs.Shapes.{form};
ghost use Rattle.ciphers.specs.Swaps.{swap, answer, left};
ghost use Rattle.ciphers.specs.Ways.{map_of};
ghost use Rattle.layers.specs.Firsts.{preferring};
ghost use Rattle.layers.specs.FirstsLemmas.{first_laws};

use ciphers::checks::{check, pass_up};
use ciphers::cipher::FormatCipher;
use ciphers::way::{Way, swap};
use faults::fault::Fault;
use formats::shape::Shape;

// Two ciphers, of which the left one comes first.
#[derive(Drop)]
pub struct FirstOf<L, R> {
    left: L,
    right: R,
}

impl<L, R> FirstOf<L, R> {
    // The layer over two ciphers.
    pub fn new(left: L, right: R) -> FirstOf<L, R>
        ensures left { result.left ≡ left }
        ensures right { result.right ≡ right }
    {
        FirstOf { left, right }
    }
}

// Where the left one takes a shape, the right one is never asked.
impl<L: FormatCipher, R: FormatCipher> FormatCipher for FirstOf<L, R> {
    ghost meaning = { λ s. preferring (L.FormatCipher.meaning s.left) (R.FormatCipher.meaning s.right) };

    ghost lawful = { λ s. first_laws _ _ (L.FormatCipher.lawful s.left) (R.FormatCipher.lawful s.right) };

    fn takes(&self, shape: &Shape) -> bool {
        self.left.takes(shape) || self.right.takes(shape)
    }

    fn forward(&mut self, shape: &Shape, run: &[u8], code: &mut [u8]) -> Result<(), Fault> {
        self.swap(Way::Forward, shape, run, code)
    }

    fn backward(&mut self, shape: &Shape, run: &[u8], code: &mut [u8]) -> Result<(), Fault> {
        self.swap(Way::Backward, shape, run, code)
    }
}

impl<L: FormatCipher, R: FormatCipher> FirstOf<L, R> {
    // Swaps by the first that takes the shape, one way or the other.
    fn swap(&mut self, way: Way, shape: &Shape, run: &[u8], code: &mut [u8]) -> Result<(), Fault>
        ensures value { let m = preferring (L.FormatCipher.meaning self.old.left) (R.FormatCipher.meaning self.old.right) in result ≡ answer (swap m (map_of m way) (form shape.now) run.now code.old) }
        ensures after { let m = preferring (L.FormatCipher.meaning self.old.left) (R.FormatCipher.meaning self.old.right) in code.new ≡ left (swap m (map_of m way) (form shape.now) run.now code.old) code.old }
        ensures same { preferring (L.FormatCipher.meaning self.new.left) (R.FormatCipher.meaning self.new.right) ≡ preferring (L.FormatCipher.meaning self.old.left) (R.FormatCipher.meaning self.old.right) }
    {
        if self.left.takes(shape) {
            check(true, shape, run, code)?;
            return pass_up(swap(&mut self.left, way, shape, run, code));
        }
        check(self.right.takes(shape), shape, run, code)?;
        pass_up(swap(&mut self.right, way, shape, run, code))
    }
}
