// The words of a line, each read as what a command takes at its place.
use crate::unanswered::Unanswered;
use keys::label::Sequence;
use std::alloc::Global;
use std::num::ParseIntError;
use std::str::{FromStr, from_utf8};
use text::hex;
use text::hex::Letters;
use text::reader::Reader;

// The next word, whatever it is. Words are parted by one space, so that none is empty.
pub(crate) fn next<'a>(words: &mut Reader<'a>) -> Result<&'a [u8], Unanswered> {
    let word = words.word().filter(|word| !word.is_empty());
    word.ok_or(Unanswered::Unreadable)
}

// No word more.
pub(crate) fn end(words: &mut Reader<'_>) -> Result<(), Unanswered> {
    let ended = words.word().is_none().then_some(());
    ended.ok_or(Unanswered::Unreadable)
}

// A decimal number.
pub(crate) fn number<N: FromStr<Err = ParseIntError>>(
    words: &mut Reader<'_>,
) -> Result<N, Unanswered> {
    let digits = from_utf8(next(words)?).map_err(|_| Unanswered::Unreadable)?;
    digits.parse().map_err(|_| Unanswered::Unreadable)
}

// A key: sixteen bytes in hexadecimal.
pub(crate) fn key(words: &mut Reader<'_>) -> Result<[u8; 16], Unanswered> {
    hex::block(Letters::Upper, next(words)?).ok_or(Unanswered::Unreadable)
}

// Bytes in hexadecimal.
pub(crate) fn bytes(heap: Global, words: &mut Reader<'_>) -> Result<Vec<u8>, Unanswered> {
    let mut bytes = next(words)?.to_vec(heap)?;
    let count = hex::decode(Letters::Upper, bytes.as_mut_slice()).ok_or(Unanswered::Unreadable)?;
    bytes.truncate(count);
    Ok(bytes)
}

// Which index sequence is meant.
pub(crate) fn sequence(words: &mut Reader<'_>) -> Result<Sequence, Unanswered> {
    match next(words)? {
        b"given" => Ok(Sequence::GivenPool),
        b"key" => Ok(Sequence::KeyPool),
        _ => Err(Unanswered::Unreadable),
    }
}
