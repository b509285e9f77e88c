// A code swapped under one run after the other, by any cipher.
ghost use Rattle.std.specs.Prelude.{◌≡◌};
ghost use Rattle.formats.specs.Shapes.{form};
ghost use Rattle.network_c.specs.Under.{toward, under};

use crate::ffi::Run;
use ciphers::cipher::FormatCipher;
use ciphers::way::{Way, swap};
use faults::fault::Fault;
use formats::shape::Shape;

// One way or the other, up to the first refusal.
pub(crate) fn swap_under<T: FormatCipher>(
    cipher: &mut T,
    way: Way,
    shape: &Shape,
    runs: &[Run],
    code: &mut [u8],
) -> Result<(), Fault>
    ensures value { result ≡ (under (toward way (T.FormatCipher.meaning cipher.old) (form shape.now)) runs.now code.old).answer }
    ensures after { code.new ≡ (under (toward way (T.FormatCipher.meaning cipher.old) (form shape.now)) runs.now code.old).code }
{
    for run in runs {
        swap(cipher, way, shape, &run.name, code)?;
    }
    Ok(())
}
