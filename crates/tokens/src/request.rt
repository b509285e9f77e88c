// What a line asks for.
use pools::pool::Origin;
use text::hex;
use text::hex::Letters;
use text::reader::Reader;

// A line with a longer code is unreadable.
const MOST_SYMBOLS: usize = 32;

// The words of a line.
#[derive(Clone, Copy)]
pub(crate) struct Request<'a> {
    pub(crate) origin: Origin,
    pub(crate) key: [u8; 16],
    pub(crate) run: &'a [u8],
    pub(crate) shape: &'a [u8],
    pub(crate) code: &'a [u8],
}

impl<'a> Request<'a> {
    pub(crate) fn read(line: &'a [u8]) -> Option<Request<'a>> {
        let mut words = Reader::new(line);
        let origin = origin(words.word()?);
        let key = hex::block(Letters::Upper, words.word()?)?;
        let run = words.word()?;
        let shape = words.word()?;
        let code = words.word()?;
        if code.len() > MOST_SYMBOLS || words.word().is_some() {
            return None;
        }
        Some(Request {
            origin,
            key,
            run,
            shape,
            code,
        })
    }
}

// Each word but `file` means the key.
fn origin(word: &[u8]) -> Origin {
    match word {
        b"file" => Origin::Given,
        _ => Origin::Key,
    }
}
