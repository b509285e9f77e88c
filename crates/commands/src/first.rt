// The first line: which cipher the coder stands over.
ghost use Rattle.std.specs.Prelude.{◌≡◌};
ghost use Rattle.std.specs.Option.{option_map};
ghost use Rattle.commands.specs.Openings.{opening, as_opening, chosen, book_of, network_of, alphabet_in};

use crate::command::MOST_BYTES;
use crate::words::{end, next_word, only_byte};
use alphabets::alphabet::Alphabet;
use text::hex;
use text::hex::Letters;
use text::reader::Reader;

// What a first line asks for. A shape's text and the coins, as digits, are parts of the line.
#[derive(Clone, Copy)]
pub enum First<'a> {
    // a walk over the codebook of a shape, made with coins
    Codebook { shape: &'a [u8], coins: &'a [u8] },
    // the network of an alphabet, with its pool from a key
    Network { alphabet: Alphabet, key: [u8; 16] },
}

// What a first line spells, or `None` where it is unreadable.
pub fn read_first<'a>(line: &'a [u8]) -> Option<First<'a>>
    ensures { option_map as_opening result ≡ opening line.now }
{
    if line.len() > MOST_BYTES {
        return None;
    }
    let mut words = Reader::new(line);
    let name = next_word(&mut words)?;
    let subject = next_word(&mut words)?;
    let digits = next_word(&mut words)?;
    end(&mut words)?;
    choose(name, subject, digits)
}

// What the three words of a first line ask for.
fn choose<'a>(name: &[u8], subject: &'a [u8], digits: &'a [u8]) -> Option<First<'a>>
    ensures { option_map as_opening result ≡ chosen name.now subject.now digits.now }
{
    match only_byte(name)? {
        b'B' => codebook(subject, digits),
        b'F' => network(subject, digits),
        _ => None,
    }
}

fn codebook<'a>(shape: &'a [u8], coins: &'a [u8]) -> Option<First<'a>>
    ensures { option_map as_opening result ≡ book_of shape.now coins.now }
{
    hex::is_bytes(Letters::Upper, coins).then_some(First::Codebook { shape, coins })
}

fn network<'a>(letter: &'a [u8], digits: &'a [u8]) -> Option<First<'a>>
    ensures { option_map as_opening result ≡ network_of letter.now digits.now }
{
    let alphabet = alphabet(letter)?;
    let key = hex::block(Letters::Upper, digits)?;
    Some(First::Network { alphabet, key })
}

// An alphabet's letter alone.
fn alphabet(letter: &[u8]) -> Option<Alphabet>
    ensures { result ≡ alphabet_in letter.now }
{
    Alphabet::from_letter(only_byte(letter)?)
}
