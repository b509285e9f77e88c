// What is a code of a shape.
ghost use Rattle.std.specs.Prelude.{◌≡◌};
ghost use Rattle.formats.specs.Shapes.{form};
ghost use Rattle.rules.specs.Rules.{is_code};

use formats::code::check;
use formats::shape::Shape;

// Is it a code of the shape? A rule says no to every other string.
#[tactic(auto, unfolding(crate::specs::Rules::is_code))]
pub(crate) fn is_code(shape: &Shape, code: &[u8]) -> bool
    ensures { result ≡ is_code (form shape.now) code.now }
{
    check(shape, code).is_ok()
}
