// A codebook from coins.
ghost use Rattle.std.specs.Prelude.{◌≡◌, IfOk};
ghost use Rattle.coins.specs.Coins.{after};
ghost use Rattle.formats.specs.Shapes.{form};
ghost use Rattle.codebook.specs.BookLaws.{Sound};
ghost use Rattle.codebook.specs.Books.{making_book};
ghost use Rattle.codebook.specs.Codebooks.{book, booked};

use crate::book::Codebook;
use coins::sbox::Sbox;
use coins::source::Coins;
use faults::fault::{Cause, Fault};
use formats::shape::Shape;

// The most codes that a codebook can have.
const MOST_CODES: u64 = 4096;

impl Codebook {
    // Makes the codebook of a shape's alphabet and length from coins. Refused for more than 4,096 codes, when
    // nothing is taken, and for too few coins, when those of finished tries stay taken.
    pub fn from_coins<C: Coins>(coins: &mut C, shape: &Shape) -> Result<Codebook, Fault>
        ensures value { booked result ≡ (making_book (form shape.now) (C.waiting coins.old)).answer }
        ensures after { C.waiting coins.new ≡ after (making_book (form shape.now) (C.waiting coins.old)) (C.waiting coins.old) }
        ensures sound { IfOk result (λ b. Sound (book b)) }
    {
        let count = shape
            .count_codes(MOST_CODES)
            .ok_or(Fault::own(Cause::ShapeNotTaken))?;
        let (sbox, _) = Sbox::shuffled(coins, count as u16).map_err(Fault::passed_up)?;
        Ok(Codebook {
            alphabet: shape.alphabet(),
            len: shape.len(),
            sbox,
        })
    }
}
