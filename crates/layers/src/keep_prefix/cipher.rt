// The layer that keeps a prefix, as a cipher over formats.
ghost use Rattle.std.specs.Prelude.{◌≡◌, ◌<◌, ◌≤◌, is_some, MatchOption};
ghost use Rattle.formats.specs.Shapes.{form};
ghost use Rattle.ciphers.specs.Swaps.{swap, answer, left};
ghost use Rattle.ciphers.specs.Ways.{map_of};
ghost use Rattle.layers.specs.Keeps.{shorter, shorter_rounds, keeping};
ghost use Rattle.layers.specs.KeepsLemmas.{keep_laws};

use crate::keep_prefix::KeepPrefix;
use ciphers::checks::{check, pass_up};
use ciphers::cipher::FormatCipher;
use ciphers::way::{Way, swap};
use faults::fault::Fault;
use formats::rounds::fewest_rounds;
use formats::shape::Shape;

impl<T: FormatCipher> FormatCipher for KeepPrefix<T> {
    ghost meaning = { λ s. keeping s.kept (T.FormatCipher.meaning s.below) };

    ghost lawful = { λ s. keep_laws s.kept _ (T.FormatCipher.lawful s.below) };

    fn takes(&self, shape: &Shape) -> bool {
        self.taken_below(shape).is_some()
    }

    fn forward(&mut self, shape: &Shape, run: &[u8], code: &mut [u8]) -> Result<(), Fault> {
        self.swap(Way::Forward, shape, run, code)
    }

    fn backward(&mut self, shape: &Shape, run: &[u8], code: &mut [u8]) -> Result<(), Fault> {
        self.swap(Way::Backward, shape, run, code)
    }
}

impl<T: FormatCipher> KeepPrefix<T> {
    // Swaps what is left past the symbols that stay, one way or the other.
    fn swap(&mut self, way: Way, shape: &Shape, run: &[u8], code: &mut [u8]) -> Result<(), Fault>
        ensures value { let m = keeping self.old.kept (T.FormatCipher.meaning self.old.below) in result ≡ answer (swap m (map_of m way) (form shape.now) run.now code.old) }
        ensures after { let m = keeping self.old.kept (T.FormatCipher.meaning self.old.below) in code.new ≡ left (swap m (map_of m way) (form shape.now) run.now code.old) code.old }
        ensures same { keeping self.new.kept (T.FormatCipher.meaning self.new.below) ≡ keeping self.old.kept (T.FormatCipher.meaning self.old.below) }
    {
        // The checks are called in two places, since only a shape that is taken leaves a rest to go on with.
        let Some(rest) = self.taken_below(shape) else {
            return check(false, shape, run, code);
        };
        check(true, shape, run, code)?;
        let part = &mut code[usize::from(self.kept)..];
        pass_up(swap(&mut self.below, way, &rest, run, part))
    }

    // The shape of what is left past the symbols that stay, where the cipher below takes it.
    fn taken_below(&self, shape: &Shape) -> Option<Shape>
        ensures takes { is_some result ≡ (keeping self.now.kept (T.FormatCipher.meaning self.now.below)).taken (form shape.now) }
        ensures rest { MatchOption result Unit (λ s. form s ≡ shorter self.now.kept (form shape.now)) }
    {
        rest_shape(self.kept, shape).filter(|rest| self.below.takes(rest))
    }
}

// The shape of what is left past the symbols that stay, where any are left. It always exists.
fn rest_shape(kept: u8, shape: &Shape) -> Option<Shape>
    ensures { MatchOption result (shape.now.len ≤ kept) (λ s. (kept < shape.now.len) × (form s ≡ shorter kept (form shape.now))) }
{
    let len = shape.len();
    if len <= kept {
        return None;
    }
    let rounds = rest_rounds(shape, len - kept);
    Shape::remake(shape.alphabet(), len - kept, rounds).ok()
}

// The rounds of a shorter length: the given ones, but no fewer than its least number, and none at length 1.
fn rest_rounds(shape: &Shape, len: u8) -> u16
    ensures { result ≡ shorter_rounds (form shape.now) len }
{
    if len == 1 {
        return 0;
    }
    shape.rounds().max(fewest_rounds(shape.alphabet(), len))
}
