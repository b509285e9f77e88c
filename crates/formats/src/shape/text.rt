// The text of a shape: the alphabet's letter, two digits for the length and, if wanted, a slash and three digits
// for the rounds, as d10 and d10/039.
ghost use Rattle.std.specs.Prelude.{◌≡◌, ◌<◌, ◌≤◌, ◌^◌, length, IfSome};
ghost use Rattle.std.specs.Option.{option_map};
ghost use Rattle.arrayvec.specs.ArrayVec.{ArrayVec};
ghost use Rattle.formats.specs.Shapes.{form, formed};
ghost use Rattle.formats.specs.ShapeTexts.{number_of, named_rounds, parts_of, read_form, text_of};

use crate::shape::Shape;
use alphabets::alphabet::Alphabet;
use arrayvec::ArrayVec;
use faults::fault::{Cause, Fault};

impl Shape {
    // The shape that a text spells.
    #[tactic(auto, unfolding(crate::specs::ShapeTexts::read_form))]
    pub fn read(text: &[u8]) -> Result<Shape, Fault>
        ensures { formed result ≡ read_form text.now }
    {
        let (alphabet, len, rounds) = parts(text).ok_or(Fault::own(Cause::ShapeText))?;
        Shape::new(alphabet, len, rounds)
    }

    // The text that names all of the shape: 3 bytes at length 1, else 7, with the rounds. Rounds above 999, as
    // length 2 may have them, have no text.
    pub fn text(&self) -> Option<ArrayVec<u8, 7>>
        ensures { option_map (λ (t : _). t.items) result ≡ text_of (form self.now) }
    {
        let letter = self.alphabet.letter();
        let tens = b'0' + self.len / 10;
        let ones = b'0' + self.len % 10;
        if self.len == 1 {
            return ArrayVec::try_from([letter, tens, ones].as_slice()).ok();
        }
        if self.rounds >= 1000 {
            return None;
        }
        let high = b'0' + (self.rounds / 100) as u8;
        let middle = b'0' + (self.rounds / 10 % 10) as u8;
        let low = b'0' + (self.rounds % 10) as u8;
        Some(ArrayVec::from([letter, tens, ones, b'/', high, middle, low]))
    }
}

// The alphabet, the length and the rounds that a text names, whatever their limits.
fn parts(text: &[u8]) -> Option<(Alphabet, u8, Option<u16>)>
    ensures { result ≡ parts_of text.now }
{
    let [letter, tens, ones, rest @ ..] = text else {
        return None;
    };
    let alphabet = Alphabet::from_letter(*letter)?;
    let len = number(&[*tens, *ones])? as u8;
    let rounds = named_rounds(rest)?;
    Some((alphabet, len, rounds))
}

// The rounds after the length: none, or those after a slash.
fn named_rounds(rest: &[u8]) -> Option<Option<u16>>
    ensures { result ≡ named_rounds rest.now }
{
    match rest {
        [] => Some(None),
        [b'/', hundreds, tens, ones] => Some(Some(number(&[*hundreds, *tens, *ones])?)),
        _ => None,
    }
}

// The number that at most three digits write.
fn number(digits: &[u8]) -> Option<u16>
    requires { length digits.now ≤ 3 }
    ensures value { result ≡ number_of digits.now }
    ensures small { IfSome result (λ n. n < 10 ^ length digits.now) }
{
    let mut number = 0;
    for byte in digits {
        number = 10 * number + u16::from(Alphabet::Decimal.symbol(*byte)?);
    }
    Some(number)
}
