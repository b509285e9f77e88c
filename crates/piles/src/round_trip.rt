// A mask and then an unmask: what is not refused comes back as it was.
ghost use Rattle.std.specs.Prelude.{◌≡◌};
ghost use Rattle.formats.specs.Shapes.{form};
ghost use Rattle.ciphers.specs.Held.{network_of};
ghost use Rattle.ciphers.specs.Swaps.{onward, answer};
ghost use Rattle.piles.specs.Piles.{nonzero_over_luhn_pile};

use crate::swap::walk_twice;
use ciphers::cipher::FormatCipher;
use ciphers::fast::Fast;
use faults::fault::Fault;
use formats::shape::Shape;

// By a walk to codes that do not begin with 0, over a walk to codes that pass the Luhn test, over the network. What
// the mask refuses is refused, and the code ends as it was on every way out.
pub fn nonzero_over_luhn(
    network: Fast,
    shape: &Shape,
    run: &[u8],
    code: &mut [u8],
) -> Result<(), Fault>
    ensures value { result ≡ answer (onward (nonzero_over_luhn_pile (network_of network)) (form shape.now) run.now code.old) }
    ensures after { code.new ≡ code.old }
{
    let mut outer = walk_twice(network);
    there_and_back(&mut outer, shape, run, code)
}

// By any cipher: the backward map undoes the forward one.
fn there_and_back<T: FormatCipher>(
    cipher: &mut T,
    shape: &Shape,
    run: &[u8],
    code: &mut [u8],
) -> Result<(), Fault>
    ensures value { result ≡ answer (onward (T.FormatCipher.meaning cipher.old) (form shape.now) run.now code.old) }
    ensures after { code.new ≡ code.old }
{
    cipher.forward(shape, run, code)?;
    cipher.backward(shape, run, code)
}
