// The walk as a cipher over formats.
ghost use Rattle.std.specs.Prelude.{◌≡◌};
ghost use Rattle.formats.specs.Shapes.{form};
ghost use Rattle.ciphers.specs.Swaps.{answer, left};
ghost use Rattle.walk.specs.Calls.{outcome};
ghost use Rattle.walk.specs.Walks.{walking};
ghost use Rattle.walk.specs.Walked.{walk_laws};

use crate::count::has_few_codes;
use crate::cycle::CycleWalk;
use ciphers::checks::pass_up;
use ciphers::cipher::FormatCipher;
use ciphers::way::{Way, swap};
use faults::fault::Fault;
use formats::shape::Shape;
use rules::rule::Rule;

// It takes what is taken below and has at most 2^63 codes, and bars what the rule denies and what is barred below.
impl<T: FormatCipher, R: Rule> FormatCipher for CycleWalk<T, R> {
    ghost meaning = { λ s. walking (T.FormatCipher.meaning s.below) (R.Rule.allowed s.rule) };

    ghost lawful = { λ s. walk_laws (T.FormatCipher.meaning s.below) (R.Rule.allowed s.rule) (T.FormatCipher.lawful s.below) };

    fn takes(&self, shape: &Shape) -> bool {
        self.below.takes(shape) && has_few_codes(shape)
    }

    fn forward(&mut self, shape: &Shape, run: &[u8], code: &mut [u8]) -> Result<(), Fault> {
        self.walk(Way::Forward, shape, run, code)
    }

    fn backward(&mut self, shape: &Shape, run: &[u8], code: &mut [u8]) -> Result<(), Fault> {
        self.walk(Way::Backward, shape, run, code)
    }
}

impl<T: FormatCipher, R: Rule> CycleWalk<T, R> {
    // Swaps below once, and on until the rule says yes. Only the first swap can be refused, and then the code is as
    // it was.
    fn walk(&mut self, way: Way, shape: &Shape, run: &[u8], code: &mut [u8]) -> Result<(), Fault>
        ensures value { result ≡ answer (outcome way (T.FormatCipher.meaning self.old.below) (R.Rule.allowed self.old.rule) (form shape.now) run.now code.old) }
        ensures after { code.new ≡ left (outcome way (T.FormatCipher.meaning self.old.below) (R.Rule.allowed self.old.rule) (form shape.now) run.now code.old) code.old }
        ensures same { walking (T.FormatCipher.meaning self.new.below) (R.Rule.allowed self.new.rule) ≡ walking (T.FormatCipher.meaning self.old.below) (R.Rule.allowed self.old.rule) }
    {
        self.admit(shape, run, code)?;
        pass_up(swap(&mut self.below, way, shape, run, code))?;
        self.walk_on(way, shape, run, code);
        Ok(())
    }
}
