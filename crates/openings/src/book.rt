// The walk over a codebook that a first line names.
ghost use Rattle.std.specs.Prelude.{◌≡◌};
ghost use Rattle.openings.specs.OpenedBooks.{book_in, coins_in, coins_of, opened_book};

use arrayvec::ArrayVec;
use codebook::book::Codebook;
use coins::bytes::ByteCoins;
use faults::fault::{Cause, Fault};
use formats::shape::Shape;
use rules::nonzero_lead::NonzeroLead;
use text::hex;
use text::hex::Letters;
use walk::cycle::CycleWalk;

// No line has more digits.
const MOST_DIGITS: usize = 4096;

// The walk to codes that do not begin with 0, over the codebook of the shape that a text spells, made with the coins
// that digits spell. Digits that are no bytes are refused first, and then a text that spells no shape.
pub fn open_book(shape: &[u8], digits: &[u8]) -> Result<CycleWalk<Codebook, NonzeroLead>, Fault>
    ensures { book_in result ≡ opened_book shape.now digits.now }
{
    let bytes = read_coins(digits)?;
    let shape = Shape::read(shape)?;
    let mut coins = ByteCoins::new(bytes.as_slice());
    let codebook = Codebook::from_coins(&mut coins, &shape)?;
    Ok(CycleWalk::new(codebook, NonzeroLead))
}

// The bytes that digits spell.
fn read_coins(digits: &[u8]) -> Result<ArrayVec<u8, MOST_DIGITS>, Fault>
    ensures { coins_in result ≡ coins_of digits.now }
{
    let mut text = ArrayVec::new();
    text.try_extend_from_slice(digits)
        .map_err(|_| Fault::own(Cause::Line))?;
    let count = hex::decode(Letters::Upper, text.as_mut_slice()).ok_or(Fault::own(Cause::Line))?;
    text.truncate(count);
    Ok(text)
}
