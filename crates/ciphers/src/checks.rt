// The refusals that every cipher finds by itself, in the whole code and in this order.
ghost use Rattle.std.specs.Prelude.{◌≡◌};
ghost use Rattle.ciphers.specs.Swaps.{checked, passed_up};
ghost use Rattle.formats.specs.Shapes.{form};

use alphabets::run_name;
use faults::fault::{Cause, Fault};
use formats::code;
use formats::shape::Shape;

// Refuses an illegal run name, a shape that is not taken, a code of another length, and a number that is no symbol.
pub fn check(taken: bool, shape: &Shape, run: &[u8], code: &[u8]) -> Result<(), Fault>
    ensures { result ≡ checked taken (form shape.now) run.now code.now }
{
    run_name::check(run)?;
    if !taken {
        return Err(Fault::own(Cause::ShapeNotTaken));
    }
    code::check(shape, code)
}

// What a cipher below answered, as a layer above it passes it up: a refusal is one deeper.
pub fn pass_up(below: Result<(), Fault>) -> Result<(), Fault>
    ensures { result ≡ passed_up below }
{
    below.map_err(Fault::passed_up)
}
