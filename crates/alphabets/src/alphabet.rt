// The alphabets: which bytes write the symbols of a code.
ghost use Rattle.std.specs.Prelude.{◌≡◌, ◌+◌, ◌-◌, ◌<◌};
ghost use Rattle.alphabets.specs.Alphabets.{radix_of, letter_of, alphabet_of, symbol_of, byte_of, span_at};

// What the symbols of a code are written with. A symbol of an alphabet of radix a is a number below a.
#[derive(Clone, Copy, PartialEq, Eq, Debug)]
pub enum Alphabet {
    // the digits
    Decimal,
    // the digits, and then A to F
    Hex,
    // the capital letters
    Upper,
    // the digits, and then the capital letters
    Alphanumeric,
}

// Calls with names of their own, and no `From`: an alphabet goes with two bytes, its letter and its radix.
impl Alphabet {
    // The alphabet that a letter names, as at the front of a shape's text.
    pub fn from_letter(letter: u8) -> Option<Alphabet>
        ensures { result ≡ alphabet_of letter }
    {
        match letter {
            b'd' => Some(Alphabet::Decimal),
            b'h' => Some(Alphabet::Hex),
            b'u' => Some(Alphabet::Upper),
            b'm' => Some(Alphabet::Alphanumeric),
            _ => None,
        }
    }

    // The letter that names the alphabet.
    pub fn letter(self) -> u8
        ensures { result ≡ letter_of self }
    {
        match self {
            Alphabet::Decimal => b'd',
            Alphabet::Hex => b'h',
            Alphabet::Upper => b'u',
            Alphabet::Alphanumeric => b'm',
        }
    }

    // How many symbols there are.
    pub fn radix(self) -> u8
        ensures { result ≡ radix_of self }
    {
        match self {
            Alphabet::Decimal => 10,
            Alphabet::Hex => 16,
            Alphabet::Upper => 26,
            Alphabet::Alphanumeric => 36,
        }
    }

    // The symbol that a byte writes.
    pub fn symbol(self, byte: u8) -> Option<u8>
        ensures { result ≡ symbol_of self byte }
    {
        match self {
            Alphabet::Decimal => span(byte, b'0', b'9', 0),
            Alphabet::Hex => span(byte, b'0', b'9', 0).or(span(byte, b'A', b'F', 10)),
            Alphabet::Upper => span(byte, b'A', b'Z', 0),
            Alphabet::Alphanumeric => span(byte, b'0', b'9', 0).or(span(byte, b'A', b'Z', 10)),
        }
    }

    // The byte that writes a symbol.
    pub fn byte(self, symbol: u8) -> Option<u8>
        ensures { result ≡ byte_of self symbol }
    {
        match self {
            Alphabet::Decimal => span(symbol, 0, 9, b'0'),
            Alphabet::Hex => span(symbol, 0, 9, b'0').or(span(symbol, 10, 15, b'A')),
            Alphabet::Upper => span(symbol, 0, 25, b'A'),
            Alphabet::Alphanumeric => span(symbol, 0, 9, b'0').or(span(symbol, 10, 35, b'A')),
        }
    }
}

// What x goes to, where the numbers from `first` to `last` go in order to those from `start` on.
fn span(x: u8, first: u8, last: u8, start: u8) -> Option<u8>
    requires { last - first + start < 256 }
    ensures { result ≡ span_at x first last start }
{
    (first..=last).contains(&x).then(|| x - first + start)
}
