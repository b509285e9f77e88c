// The rule that a code does not begin with 0.
ghost use Rattle.rules.specs.Rules.{leads_nonzero};
ghost use Rattle.rules.specs.Told.{lead_only};

use crate::codes::is_code;
use crate::rule::Rule;
use formats::shape::Shape;

// Yes unless the first symbol is 0.
#[derive(Drop)]
pub struct NonzeroLead;

impl Rule for NonzeroLead {
    ghost allowed = { λ s. leads_nonzero };

    ghost coded = { λ s f c. lead_only f c };

    fn allows(&self, shape: &Shape, code: &[u8]) -> bool {
        is_code(shape, code) && code[0] != 0
    }
}
