// A line to print, in memory of its own.
ghost use Rattle.std.specs.Prelude.{◌≡◌, ◌+◌, ◌≤◌, [], ◌++◌, length};

use itoa::{Buffer, Integer};
use std::marker::Model;

// The most bytes that a line to print has.
pub const MOST_PRINTED: usize = 48;

// The first `len` of the bytes are to be printed, and the rest are zeros.
// An array with a length: lines are Copy, so that a row of slots is made by copies, and an `ArrayVec` is not.
#[derive(Clone, Copy)]
pub struct Printed {
    bytes: [u8; MOST_PRINTED],
    len: usize,
}

// In contracts a line is the bytes to print.
impl Model for Printed {
    ghost use Rattle.std.specs.Prelude.{ℕ, List, take, length};
    ghost use Rattle.printing.specs.Rows.{Row, filled_up, as_long, filled_again};

    ghost Value = { List ℕ };

    ghost view = { λ p. take p.len p.bytes };

    ghost invariant = { λ p. Row p.bytes p.len };

    ghost inverse = { λ text. record { bytes = filled_up text; len = length text } };

    ghost inverse_ok = { λ p row i. record {
      bytes = filled_again p.bytes p.len row i;
      len = as_long p.bytes p.len row i;
    } };
}

impl Printed {
    // Nothing to print.
    pub fn new() -> Printed
        ensures { result ≡ [] }
    {
        Printed {
            bytes: [0; MOST_PRINTED],
            len: 0,
        }
    }

    // What is to be printed.
    pub fn as_bytes(&self) -> &[u8]
        ensures value { result.now ≡ self.now }
        ensures short { length result.now ≤ 48 }
    {
        &self.bytes[..self.len]
    }

    // Writes a text after what is there.
    pub(crate) fn put(&mut self, text: &[u8])
        requires { length self.old + length text.now ≤ 48 }
        ensures { self.new ≡ self.old ++ text.now }
    {
        let end = self.len + text.len();
        self.bytes[self.len..end].copy_from_slice(text);
        self.len = end;
    }

    // Writes a number in decimal digits.
    pub(crate) fn put_number<I: Integer>(&mut self, n: I)
        requires { length self.old + I.MAX_STR_LEN ≤ 48 }
        ensures grows { self.new ≡ self.old ++ I.text n }
        ensures few { length (I.text n) ≤ I.MAX_STR_LEN }
    {
        self.put(Buffer::new().format(n).as_bytes());
    }
}
