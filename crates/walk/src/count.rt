// How many codes a shape has, against the most that a walk takes.
ghost use Rattle.std.specs.Prelude.{◌≡◌};
ghost use Rattle.formats.specs.Shapes.{form};
ghost use Rattle.walk.specs.Walks.{few_codes};

use formats::shape::Shape;

// A walk takes no shape of more codes.
const MOST_CODES: u64 = 1 << 63;

// Does a shape have at most 2^63 codes?
#[tactic(auto, unfolding(crate::specs::Walks::few_codes, formats::specs::Forms::code_count))]
pub(crate) fn has_few_codes(shape: &Shape) -> bool
    ensures { result ≡ few_codes (form shape.now) }
{
    shape.count_codes(MOST_CODES).is_some()
}
