// The rule that the weighted sum of a decimal code is a multiple of 10.
ghost use Rattle.std.specs.Prelude.{◌≡◌, ◌≤◌, ◌%◌, ◌==◌, length};
ghost use Rattle.rules.specs.Rules.{passes_luhn, luhn_sum, weight};
ghost use Rattle.rules.specs.Told.{luhn_only};

use crate::codes::is_code;
use crate::rule::Rule;
use alphabets::alphabet::Alphabet;
use formats::shape::Shape;

// Yes to a code of digits whose weighted sum is a multiple of 10.
#[derive(Drop)]
pub struct Luhn;

impl Rule for Luhn {
    ghost allowed = { λ s. passes_luhn };

    ghost coded = { λ s f c. luhn_only f c };

    fn allows(&self, shape: &Shape, code: &[u8]) -> bool {
        match shape.alphabet() {
            Alphabet::Decimal => is_code(shape, code) && weighted_sum(code) % 10 == 0,
            _ => false,
        }
    }
}

// The sum of what the digits count. A loop: the proof of a chain's sum does not see through the pairs with places.
fn weighted_sum(code: &[u8]) -> u32
    requires { length code.now ≤ 32 }
    ensures { result ≡ luhn_sum code.now }
{
    let mut sum = 0;
    for (place, digit) in code.iter().enumerate() {
        sum += weigh(place, *digit);
    }
    sum
}

// What the digit at a place counts: the first digit and then every other one its double, less 9 if that is above 9,
// and the others themselves.
fn weigh(place: usize, digit: u8) -> u32
    ensures { result ≡ weight (place % 2 == 0) digit }
{
    if place % 2 != 0 {
        return u32::from(digit);
    }
    let double = u32::from(digit) * 2;
    if double > 9 { double - 9 } else { double }
}
