// Why a line cannot be read.
ghost use Rattle.std.specs.Prelude.{◌≡◌, Some};
ghost use Rattle.block_lines.specs.Messages.{message_of};

use std::error::Error;
use std::fmt;

// What a line is refused for: the first thing that is wrong in it, from left to right.
#[derive(Clone, Copy, PartialEq, Eq, Debug)]
pub enum Unreadable {
    // a space at the start or the end, or two in a row
    EmptyWord,
    // the line ends too early
    MissingWord,
    // the line goes on
    TooManyWords,
    // the first word is no command
    Command,
    // the key is not 32 digits
    Key,
    // the block is not 32 digits
    Block,
    // the IV is not 32 digits
    Iv,
    // the index is not 1 to 32 digits
    Index,
    // the message is not an even number of digits
    Message,
}

impl Unreadable {
    // The words that say so.
    pub fn message(self) -> &'static str
        ensures { result.now ≡ message_of self }
    {
        match self {
            Unreadable::EmptyWord => "empty word",
            Unreadable::MissingWord => "a word is missing",
            Unreadable::TooManyWords => "too many words",
            Unreadable::Command => "unknown command",
            Unreadable::Key => "the key is not 32 hexadecimal digits",
            Unreadable::Block => "the block is not 32 hexadecimal digits",
            Unreadable::Iv => "the IV is not 32 hexadecimal digits",
            Unreadable::Index => "the index is not 1 to 32 hexadecimal digits",
            Unreadable::Message => "the message is not an even number of hexadecimal digits",
        }
    }
}

impl fmt::Display for Unreadable {
    ghost output = { λ why. Some (message_of why) };

    fn fmt<W: fmt::Write>(&self, f: &mut fmt::Formatter<W>) -> fmt::Result {
        f.write_str(self.message())
    }
}

impl Error for Unreadable {}
