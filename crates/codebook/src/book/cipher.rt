// The codebook as a cipher over formats.
ghost use Rattle.std.specs.Prelude.{◌≡◌, ◌^◌, ◌<◌, ◌≤◌, length};
ghost use Rattle.std.specs.List.{AllByRecursion};
ghost use Rattle.formats.specs.Shapes.{form};
ghost use Rattle.codebook.specs.Books.{numbered, meaning_of};
ghost use Rattle.codebook.specs.Codebooks.{book};
ghost use Rattle.codebook.specs.Numbers.{number as number_of, written};
ghost use Rattle.codebook.specs.Calls.{sound};
ghost use Rattle.codebook.specs.Permuted;

use crate::book::Codebook;
use ciphers::checks::check;
use ciphers::cipher::FormatCipher;
use faults::fault::Fault;
use formats::shape::Shape;

// It takes the shapes of its alphabet and length, whatever their rounds, bars nothing, and is the same for every run.
impl FormatCipher for Codebook {
    ghost meaning = { λ s. meaning_of (book s) };

    ghost lawful = { λ s. Permuted.lawful (book s) (sound s) };

    fn takes(&self, shape: &Shape) -> bool {
        self.alphabet == shape.alphabet() && self.len == shape.len()
    }

    // No way as a parameter here and below: what differs is one word, and all else has a name already.
    fn forward(&mut self, shape: &Shape, run: &[u8], code: &mut [u8]) -> Result<(), Fault> {
        let number = self.number_of(shape, run, code)?;
        let image = self.sbox.apply(number).unwrap_or(0);
        write_number(self.alphabet.radix(), image, code);
        Ok(())
    }

    fn backward(&mut self, shape: &Shape, run: &[u8], code: &mut [u8]) -> Result<(), Fault> {
        let image = self.number_of(shape, run, code)?;
        let number = self.sbox.undo(image).unwrap_or(0);
        write_number(self.alphabet.radix(), number, code);
        Ok(())
    }
}

impl Codebook {
    // The number of a code that passes the checks. It is below the box's radix.
    fn number_of(&self, shape: &Shape, run: &[u8], code: &[u8]) -> Result<u16, Fault>
        ensures { result ≡ numbered (book self.now) (form shape.now) run.now code.now }
    {
        check(self.takes(shape), shape, run, code)?;
        Ok(read_number(self.alphabet.radix(), code))
    }
}

// The number that a code reads as.
fn read_number(radix: u8, code: &[u8]) -> u16
    requires symbols { AllByRecursion (λ x. x < radix) code.now }
    requires few { radix ^ length code.now ≤ 4096 }
    ensures { result ≡ number_of radix code.now }
{
    // A loop: the closure of a fold could not bound the number so far.
    let mut number = 0u16;
    for x in code {
        number = number * u16::from(radix) + u16::from(*x);
    }
    number
}

// Writes a number as a code, from the last symbol to the first.
fn write_number(radix: u8, number: u16, code: &mut [u8])
    requires { 0 < radix }
    ensures { code.new ≡ written radix (length code.old) number }
{
    // By the place: what a reversed `iter_mut` writes is not known to the proof.
    let mut rest = number;
    for i in (0..code.len()).rev() {
        code[i] = (rest % u16::from(radix)) as u8;
        rest /= u16::from(radix);
    }
}
