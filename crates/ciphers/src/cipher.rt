// What every cipher over formats promises.
ghost use Rattle.std.specs.Prelude.{◌≡◌};
ghost use Rattle.ciphers.specs.Meanings.{Meaning, Laws};
ghost use Rattle.ciphers.specs.Swaps.{onward, homeward, answer, left};
ghost use Rattle.formats.specs.Shapes.{form};

use faults::fault::Fault;
use formats::shape::Shape;

// A cipher that swaps a code for another of the same shape, under a run's name. What it means is plain data: which
// shapes it takes, which codes it bars, and the map each way. No call alters the meaning.
pub trait FormatCipher {
    ghost meaning: { Self → Meaning };

    // Does it take codes of this shape?
    fn takes(&self, shape: &Shape) -> bool
        ensures { result ≡ (meaning self.now).taken (form shape.now) };

    // Swaps a code where it stands. A refused call leaves the code as it was.
    fn forward(&mut self, shape: &Shape, run: &[u8], code: &mut [u8]) -> Result<(), Fault>
        ensures value { result ≡ answer (onward (meaning self.old) (form shape.now) run.now code.old) }
        ensures after { code.new ≡ left (onward (meaning self.old) (form shape.now) run.now code.old) code.old }
        ensures same { meaning self.new ≡ meaning self.old };

    // Swaps it back.
    fn backward(&mut self, shape: &Shape, run: &[u8], code: &mut [u8]) -> Result<(), Fault>
        ensures value { result ≡ answer (homeward (meaning self.old) (form shape.now) run.now code.old) }
        ensures after { code.new ≡ left (homeward (meaning self.old) (form shape.now) run.now code.old) code.old }
        ensures same { meaning self.new ≡ meaning self.old };

    // each map keeps the codes that may be swapped, and undoes the other
    ghost lawful: { (s : Self) → Laws (meaning s) };
}
