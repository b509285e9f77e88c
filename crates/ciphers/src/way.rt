// The two ways of a swap.
ghost use Rattle.std.specs.Prelude.{◌≡◌};
ghost use Rattle.formats.specs.Shapes.{form};
ghost use Rattle.ciphers.specs.Swaps.{swap, answer, left};
ghost use Rattle.ciphers.specs.Ways.{map_of};

use crate::cipher::FormatCipher;
use faults::fault::Fault;
use formats::shape::Shape;

// Which way codes are swapped: forward, or back.
#[derive(Clone, Copy, PartialEq, Eq, Debug)]
pub enum Way {
    Forward,
    Backward,
}

// Swaps a code where it stands, one way or the other. A refused call leaves the code as it was.
pub fn swap<C: FormatCipher>(
    cipher: &mut C,
    way: Way,
    shape: &Shape,
    run: &[u8],
    code: &mut [u8],
) -> Result<(), Fault>
    ensures value { result ≡ answer (swap (C.FormatCipher.meaning cipher.old) (map_of (C.FormatCipher.meaning cipher.old) way) (form shape.now) run.now code.old) }
    ensures after { code.new ≡ left (swap (C.FormatCipher.meaning cipher.old) (map_of (C.FormatCipher.meaning cipher.old) way) (form shape.now) run.now code.old) code.old }
    ensures same { C.FormatCipher.meaning cipher.new ≡ C.FormatCipher.meaning cipher.old }
{
    match way {
        Way::Forward => cipher.forward(shape, run, code),
        Way::Backward => cipher.backward(shape, run, code),
    }
}
