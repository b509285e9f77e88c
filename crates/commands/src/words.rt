// The next word of a line, where a word has to stand there.
ghost use Rattle.std.specs.Prelude.{◌≡◌};
ghost use Rattle.std.specs.Option.{option_map};
ghost use Rattle.text.specs.Readers.{words_left, first_of, rest_of};
ghost use Rattle.commands.specs.Words.{filled_in, only_byte, lane_of, lane_in, ended};

use alphabets::alphabet::Alphabet;
use text::reader::Reader;

// The next word, unless there is none or it is empty.
pub(crate) fn next_word<'a>(words: &mut Reader<'a>) -> Option<&'a [u8]>
    ensures value { option_map (λ x. x.now) result ≡ filled_in (first_of (words_left words.old)) }
    ensures after { words_left words.new ≡ rest_of (words_left words.old) }
{
    words.word().filter(|word| !word.is_empty())
}

// The next word as a lane.
pub(crate) fn next_lane(words: &mut Reader<'_>) -> Option<u8>
    ensures value { result ≡ lane_in (first_of (words_left words.old)) }
    ensures after { words_left words.new ≡ rest_of (words_left words.old) }
{
    lane(words.word()?)
}

// No word more.
pub(crate) fn end(words: &mut Reader<'_>) -> Option<()>
    ensures { result ≡ ended (first_of (words_left words.old)) }
{
    words.word().is_none().then_some(())
}

// The byte of a word of one byte.
pub(crate) fn only_byte(word: &[u8]) -> Option<u8>
    ensures { result ≡ only_byte word.now }
{
    match word {
        [byte] => Some(*byte),
        _ => None,
    }
}

// A lane is one digit.
fn lane(word: &[u8]) -> Option<u8>
    ensures { result ≡ lane_of word.now }
{
    Alphabet::Decimal.symbol(only_byte(word)?)
}
