// A codebook: all the codes of an alphabet and a length, permuted by one box.
ghost use Rattle.std.specs.Prelude.{◌≡◌, ◌^◌};
ghost use Rattle.alphabets.specs.Alphabets.{radix_of};

use alphabets::alphabet::Alphabet;
use coins::sbox::Sbox;

pub mod cipher;
mod making;

// An alphabet, a length, and a box with a number for each code of them.
#[derive(Drop)]
pub struct Codebook {
    alphabet: Alphabet,
    len: u8,
    sbox: Sbox,
    ghost whole: { sbox.radix ≡ radix_of alphabet ^ len },
}
