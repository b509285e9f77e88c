// Which index sequence is wanted.
ghost use Rattle.std.specs.Prelude.{◌≡◌, ◌≤◌, true, ◌&&◌, nat_le};
ghost use Rattle.alphabets.specs.RunNames.{legal};
ghost use Rattle.formats.specs.Forms.{layers_of};
ghost use Rattle.formats.specs.Shapes.{form};
ghost use Rattle.keys.specs.Sequences.{layered};

use formats::shape::Shape;

// The sequence of a run, and of the length and the layers of a shape.
#[derive(Clone, Copy)]
pub(crate) struct Wanted<'a> {
    pub(crate) run: &'a [u8],
    pub(crate) len: u8,
    pub(crate) layers: usize,
    ghost named: { legal run.now ≡ true },
    ghost fits: { ((nat_le 2 len && nat_le len 32) && layered len layers) ≡ true },
}

impl<'a> Wanted<'a> {
    ghost use Rattle.ciphers.specs.Kept.{label, label_in};

    // What a code of a shape needs under a run.
    pub(crate) fn of(shape: &Shape, run: &'a [u8]) -> Wanted<'a>
        requires two { 2 ≤ shape.now.len }
        requires run { legal run.now ≡ true }
        ensures { label_in result ≡ label shape.now.len (layers_of (form shape.now)) run.now }
    {
        Wanted {
            run,
            len: shape.len(),
            layers: shape.layers() as usize,
        }
    }
}
