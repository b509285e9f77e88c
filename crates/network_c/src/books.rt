// The exported calls of codebooks. Coins cross as bytes, and the cause of a refusal as its number.
ghost use Rattle.std.specs.Prelude.{◌≡◌};
ghost use Rattle.codebook.specs.Books.{meaning_of};
ghost use Rattle.network_c.specs.Books.{book_plan_of, book_planned, book_toward, by_book, nonzero_book};
ghost use Rattle.network_c.specs.Under.{number_in};

use crate::ffi::Run;
use crate::ready::{Ready, number, way};
use ciphers::way::Way;
use codebook::book::Codebook;
use coins::bytes::ByteCoins;
use faults::fault::Fault;
use formats::shape::Shape;

// Masks a code of symbols where it stands, or unmasks it, under one run after the other, by the codebook from coins.
// The answer is 0, or the number of the cause at which it stopped.
#[unsafe(no_mangle)]
pub extern "C" fn codebook_swap(
    coins: &[u8],
    shape: &[u8],
    back: bool,
    runs: &[Run],
    code: &mut [u8],
) -> u8
    ensures value { result ≡ number_in (by_book meaning_of back (book_planned coins.now shape.now) runs.now code.old).answer }
    ensures after { code.new ≡ (by_book meaning_of back (book_planned coins.now shape.now) runs.now code.old).code }
{
    number(swap_book(coins, shape, way(back), runs, code))
}

// The same by a walk over the codebook to codes that do not begin with 0.
#[unsafe(no_mangle)]
pub extern "C" fn codebook_walk(
    coins: &[u8],
    shape: &[u8],
    back: bool,
    runs: &[Run],
    code: &mut [u8],
) -> u8
    ensures value { result ≡ number_in (by_book nonzero_book back (book_planned coins.now shape.now) runs.now code.old).answer }
    ensures after { code.new ≡ (by_book nonzero_book back (book_planned coins.now shape.now) runs.now code.old).code }
{
    number(walk_book(coins, shape, way(back), runs, code))
}

// Swaps a code by the codebook, one way or the other. No code is touched where no codebook is made.
fn swap_book(
    coins: &[u8],
    shape: &[u8],
    way: Way,
    runs: &[Run],
    code: &mut [u8],
) -> Result<(), Fault>
    ensures value { result ≡ (book_toward meaning_of way (book_planned coins.now shape.now) runs.now code.old).answer }
    ensures after { code.new ≡ (book_toward meaning_of way (book_planned coins.now shape.now) runs.now code.old).code }
{
    make(coins, shape)?.swap(way, runs, code)
}

// The same by the walk over it.
fn walk_book(
    coins: &[u8],
    shape: &[u8],
    way: Way,
    runs: &[Run],
    code: &mut [u8],
) -> Result<(), Fault>
    ensures value { result ≡ (book_toward nonzero_book way (book_planned coins.now shape.now) runs.now code.old).answer }
    ensures after { code.new ≡ (book_toward nonzero_book way (book_planned coins.now shape.now) runs.now code.old).code }
{
    make(coins, shape)?.walked().swap(way, runs, code)
}

// The codebook from coins for the shape that a text spells.
// Not one function with the network's `make`: the two share no more than that they read the shape first.
fn make(coins: &[u8], text: &[u8]) -> Result<Ready<Codebook>, Fault>
    ensures { book_plan_of result ≡ book_planned coins.now text.now }
{
    let shape = Shape::read(text)?;
    let mut source = ByteCoins::new(coins);
    let cipher = Codebook::from_coins(&mut source, &shape)?;
    Ok(Ready { cipher, shape })
}
