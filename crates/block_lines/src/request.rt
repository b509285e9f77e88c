// What a line asks for, word by word.
ghost use Rattle.std.specs.Prelude.{◌≡◌};
ghost use Rattle.std.specs.Option.{option_map};
ghost use Rattle.text.specs.Readers.{words_left};
ghost use Rattle.block_lines.specs.Requests.{mapped_ok, present_in, command_in, block_in, number_in, digits_in, ended, silent, encrypt_of, counter_of, cmac_of, words_ask, request_of};

use crate::unreadable::Unreadable;
use text::hex;
use text::hex::Letters;
use text::reader::Reader;

// The program's commands.
#[derive(Clone, Copy)]
pub(crate) enum Command {
    Encrypt,
    Counter,
    Cmac,
}

// What a line asks for.
#[derive(Clone, Copy)]
pub(crate) enum Request {
    // the encryption of a block under a key
    Encrypt([u8; 16], [u8; 16]),
    // the encryption of an IV plus an index under a key
    Counter([u8; 16], [u8; 16], u128),
    // The tag under a key of the message whose digits, so many, end the line. A number: the message is read where it
    // stands, and no part of a line that is borrowed to be read can be written to.
    Cmac([u8; 16], usize),
}

// What a line asks for, which is nothing if it is empty or a comment, or the first thing that is wrong in it.
#[tactic(auto, unfolding(crate::specs::Requests::request_of))]
pub(crate) fn read_request(line: &[u8]) -> Result<Option<Request>, Unreadable>
    ensures { result ≡ request_of line.now }
{
    if is_silent(line) {
        return Ok(None);
    }
    let request = asked(&mut Reader::new(line))?;
    Ok(Some(request))
}

// What words ask for: a command, a key, and what the command takes after it.
#[tactic(auto, unfolding(crate::specs::Requests::words_ask))]
fn asked(words: &mut Reader<'_>) -> Result<Request, Unreadable>
    ensures { result ≡ words_ask (words_left words.old) }
{
    let command = read_command(words.word())?;
    let key = read_block(words.word(), Unreadable::Key)?;
    match command {
        Command::Encrypt => encrypt(key, words),
        Command::Counter => counter(key, words),
        Command::Cmac => cmac(key, words),
    }
}

// An empty line and a comment ask for nothing.
fn is_silent(line: &[u8]) -> bool
    ensures { result ≡ silent line.now }
{
    match line {
        [] => true,
        [first, ..] => *first == b'#',
    }
}

#[tactic(auto, unfolding(crate::specs::Requests::encrypt_of))]
fn encrypt(key: [u8; 16], words: &mut Reader<'_>) -> Result<Request, Unreadable>
    ensures { result ≡ encrypt_of key (words_left words.old) }
{
    let block = read_block(words.word(), Unreadable::Block)?;
    end(words.word())?;
    Ok(Request::Encrypt(key, block))
}

#[tactic(auto, unfolding(crate::specs::Requests::counter_of))]
fn counter(key: [u8; 16], words: &mut Reader<'_>) -> Result<Request, Unreadable>
    ensures { result ≡ counter_of key (words_left words.old) }
{
    let iv = read_block(words.word(), Unreadable::Iv)?;
    let index = read_index(words.word())?;
    end(words.word())?;
    Ok(Request::Counter(key, iv, index))
}

#[tactic(auto, unfolding(crate::specs::Requests::cmac_of))]
fn cmac(key: [u8; 16], words: &mut Reader<'_>) -> Result<Request, Unreadable>
    ensures { result ≡ cmac_of key (words_left words.old) }
{
    let digits = read_digits(words.word())?;
    end(words.word())?;
    Ok(Request::Cmac(key, digits))
}

fn read_command(word: Option<&[u8]>) -> Result<Command, Unreadable>
    ensures { result ≡ command_in (option_map (λ x. x.now) word.entry) }
{
    // An `if` for each: of a byte string that a match tells apart, the proof learns the length alone.
    let name = present(word)?;
    if name == b"encrypt".as_slice() {
        Ok(Command::Encrypt)
    } else if name == b"counter".as_slice() {
        Ok(Command::Counter)
    } else if name == b"cmac".as_slice() {
        Ok(Command::Cmac)
    } else {
        Err(Unreadable::Command)
    }
}

// Sixteen bytes, or why the word is not.
fn read_block(word: Option<&[u8]>, why: Unreadable) -> Result<[u8; 16], Unreadable>
    ensures { result ≡ block_in why (option_map (λ x. x.now) word.entry) }
{
    hex::block(Letters::Either, present(word)?).ok_or(why)
}

// An index.
fn read_index(word: Option<&[u8]>) -> Result<u128, Unreadable>
    ensures { result ≡ number_in (option_map (λ x. x.now) word.entry) }
{
    hex::number(Letters::Either, present(word)?).ok_or(Unreadable::Index)
}

// How many digits a message has; no word is no digits.
fn read_digits(word: Option<&[u8]>) -> Result<usize, Unreadable>
    ensures { result ≡ digits_in (option_map (λ x. x.now) word.entry) }
{
    let Some(text) = word else {
        return Ok(0);
    };
    let digits = filled(text)?;
    if hex::is_bytes(Letters::Either, digits) {
        Ok(digits.len())
    } else {
        Err(Unreadable::Message)
    }
}

// A word that is there, and not empty.
fn present<'a>(word: Option<&'a [u8]>) -> Result<&'a [u8], Unreadable>
    ensures { mapped_ok (λ x. x.now) result ≡ present_in (option_map (λ x. x.now) word.entry) }
{
    filled(word.ok_or(Unreadable::MissingWord)?)
}

// A word that is not empty.
fn filled<'a>(text: &'a [u8]) -> Result<&'a [u8], Unreadable>
    ensures { mapped_ok (λ x. x.now) result ≡ present_in (Some text.now) }
{
    if text.is_empty() {
        return Err(Unreadable::EmptyWord);
    }
    Ok(text)
}

// No word more.
fn end(word: Option<&[u8]>) -> Result<(), Unreadable>
    ensures { result ≡ ended (option_map (λ x. x.now) word.entry) }
{
    match word {
        None => Ok(()),
        Some([]) => Err(Unreadable::EmptyWord),
        Some(_) => Err(Unreadable::TooManyWords),
    }
}
