// The steps of a walk: what is refused before the first swap, and the swaps after the first.
ghost use Rattle.std.specs.Prelude.{◌≡◌};
ghost use Rattle.formats.specs.Shapes.{form};
ghost use Rattle.ciphers.specs.Ways.{map_of};
ghost use Rattle.walk.specs.Calls.{admitted, OnTheWay};
ghost use Rattle.walk.specs.Walks.{sought, walking};

use crate::cycle::CycleWalk;
use ciphers::checks::check;
use ciphers::cipher::FormatCipher;
use ciphers::way::{Way, swap};
use faults::fault::{Cause, Fault};
use formats::shape::Shape;
use rules::rule::Rule;

impl<T: FormatCipher, R: Rule> CycleWalk<T, R> {
    // Refuses what every cipher refuses by itself, and then what the rule denies.
    pub(crate) fn admit(&self, shape: &Shape, run: &[u8], code: &[u8]) -> Result<(), Fault>
        ensures { result ≡ admitted ((walking (T.FormatCipher.meaning self.now.below) (R.Rule.allowed self.now.rule)).taken (form shape.now)) (R.Rule.allowed self.now.rule (form shape.now) code.now) (form shape.now) run.now code.now }
    {
        check(self.takes(shape), shape, run, code)?;
        if !self.rule.allows(shape, code) {
            return Err(Fault::own(Cause::CodeBarred));
        }
        Ok(())
    }

    // Swaps on by the cipher below, until the rule says yes. No such swap is refused.
    pub(crate) fn walk_on(&mut self, way: Way, shape: &Shape, run: &[u8], code: &mut [u8])
        requires { OnTheWay (T.FormatCipher.meaning self.old.below) (R.Rule.allowed self.old.rule) (map_of (T.FormatCipher.meaning self.old.below) way) (form shape.now) run.now code.old }
        ensures after { code.new ≡ sought (T.FormatCipher.meaning self.old.below) (R.Rule.allowed self.old.rule) (map_of (T.FormatCipher.meaning self.old.below) way) (form shape.now) run.now code.old }
        ensures same { T.FormatCipher.meaning self.new.below ≡ T.FormatCipher.meaning self.old.below }
        ensures rule { self.new.rule ≡ self.old.rule }
    {
        while !self.rule.allows(shape, code) {
            let _ = swap(&mut self.below, way, shape, run, code);
        }
    }
}
