// A shape: what the codes of a lane are like.
ghost use Rattle.std.specs.Prelude.{◌≡◌, ◌*◌, ◌≤◌};
ghost use Rattle.formats.specs.Forms.{least_of, most_layers};

use alphabets::alphabet::Alphabet;

mod making;
mod text;

// An alphabet, a length and a number of rounds, within the limits: a length from 1 to 32, no rounds at length 1,
// else no fewer than the least number and at most 2,048 layers.
#[derive(Clone, Copy, PartialEq, Eq, Debug)]
pub struct Shape {
    alphabet: Alphabet,
    len: u8,
    rounds: u16,
    ghost some: { 1 ≤ len },
    ghost short: { len ≤ 32 },
    ghost enough: { least_of alphabet len ≤ rounds },
    ghost few: { rounds * len ≤ most_layers len },
}

impl Shape {
    pub fn alphabet(&self) -> Alphabet
        ensures { result ≡ self.now.alphabet }
    {
        self.alphabet
    }

    pub fn len(&self) -> u8
        ensures { result ≡ self.now.len }
    {
        self.len
    }

    pub fn rounds(&self) -> u16
        ensures { result ≡ self.now.rounds }
    {
        self.rounds
    }
}
