// What every rule promises.
ghost use Rattle.std.specs.Prelude.{◌≡◌, ℕ, Bool, true, List};
ghost use Rattle.formats.specs.Codes.{Code};
ghost use Rattle.formats.specs.Forms.{Form};
ghost use Rattle.formats.specs.Shapes.{form};

use formats::shape::Shape;

// A rule says yes or no to a code. What it means is the set of codes that it says yes to. A question alters nothing.
pub trait Rule {
    ghost allowed: { Self → Form → List ℕ → Bool };

    // Does it say yes to this code of the shape?
    fn allows(&self, shape: &Shape, code: &[u8]) -> bool
        ensures { result ≡ allowed self.now (form shape.now) code.now };

    // no to every string that is no code of the form
    ghost coded: { (s : Self) (f : Form) (c : List ℕ) → allowed s f c ≡ true → Code f c };
}
