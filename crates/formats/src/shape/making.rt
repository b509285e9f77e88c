// Shapes are made here, and here alone.
ghost use Rattle.std.specs.Prelude.{◌≡◌};
ghost use Rattle.alphabets.specs.Alphabets.{radix_of};
ghost use Rattle.formats.specs.Forms.{Exists, counted, form_of, layers_of, most_layers, remade, made};
ghost use Rattle.formats.specs.Shapes.{form, formed};

use crate::rounds::{default_rounds, fewest_rounds};
use crate::shape::Shape;
use alphabets::alphabet::Alphabet;
use faults::fault::{Cause, Fault};

impl Shape {
    // The shape of an alphabet, a length and rounds, or the default number of rounds where none are named. No
    // rounds are named at length 1.
    pub fn new(alphabet: Alphabet, len: u8, rounds: Option<u16>) -> Result<Shape, Fault>
        ensures { formed result ≡ made alphabet len rounds }
    {
        match rounds {
            None => Shape::remake(alphabet, len, default_rounds(alphabet, len)),
            Some(_) if len == 1 => Err(Fault::own(Cause::Rounds)),
            Some(rounds) => Shape::remake(alphabet, len, rounds),
        }
    }

    // The shape of three numbers that were a shape's: at length 1 the rounds are 0.
    #[tactic(auto, unfolding(crate::specs::Forms::remade))]
    pub fn remake(alphabet: Alphabet, len: u8, rounds: u16) -> Result<Shape, Fault>
        ensures { formed result ≡ remade (form_of alphabet len rounds) }
    {
        if !(1..=32).contains(&len) {
            return Err(Fault::own(Cause::Length));
        }
        let layers = u32::from(rounds) * u32::from(len);
        if rounds < fewest_rounds(alphabet, len) || layers > most_layers(len) {
            return Err(Fault::own(Cause::Rounds));
        }
        Ok(Shape {
            alphabet,
            len,
            rounds,
        })
    }

    // How many symbols the alphabet has.
    pub fn radix(&self) -> u8
        ensures { result ≡ radix_of (form self.now).alphabet }
    {
        self.alphabet.radix()
    }

    // How many layers a code goes through: one for each of its symbols in each round. With the other parts they
    // keep every limit.
    #[tactic(auto, using(crate::proofs::Limits::form_exists))]
    pub fn layers(&self) -> u16
        ensures value { result ≡ layers_of (form self.now) }
        ensures limits { Exists (form self.now) }
    {
        self.rounds * self.len as u16
    }

    // How many codes there are, where they are at most as many as asked.
    #[tactic(auto, unfolding(crate::specs::Forms::code_count))]
    pub fn count_codes(&self, most: u64) -> Option<u64>
        ensures { result ≡ counted (form self.now) most }
    {
        let count = u64::from(self.radix()).checked_pow(u32::from(self.len))?;
        (count <= most).then_some(count)
    }
}

// The most layers that a code of this length goes through.
fn most_layers(len: u8) -> u32
    ensures { result ≡ most_layers len }
{
    if len == 1 { 0 } else { 2048 }
}
