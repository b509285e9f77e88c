// A block of text, answered line by line.
ghost use Rattle.std.specs.Prelude.{◌≡◌};
ghost use Rattle.lines.specs.Blocks.{feed_in, AnsweredBlock};

use crate::answer::answer_line;
use ciphers::cipher::FormatCipher;
use coder::coder::Coder;
use printing::printed::Printed;

// How far a block was answered: the bytes of the lines that were, and their number.
#[derive(Clone, Copy)]
pub struct Progress {
    pub used: usize,
    pub lines: usize,
}

// Answers the lines of a block in order, each into a slot of its own, until the slots are full or no line feed is
// left. What follows the last line feed is not answered, and slots that are not needed stay as they were.
pub fn answer_block<T: FormatCipher>(
    coder: &mut Coder<T>,
    block: &[u8],
    slots: &mut [Printed],
) -> Progress
    ensures { AnsweredBlock T.FormatCipher.meaning coder.old coder.new block.now result.used result.lines slots.old slots.new }
{
    let mut rest = block;
    for (i, slot) in slots.iter_mut().enumerate() {
        let Some(end) = first_feed(rest) else {
            return Progress {
                used: block.len() - rest.len(),
                lines: i,
            };
        };
        *slot = answer_line(coder, &rest[..end]);
        rest = &rest[end + 1..];
    }
    Progress {
        used: block.len() - rest.len(),
        lines: slots.len(),
    }
}

// The place of the first line feed.
fn first_feed(text: &[u8]) -> Option<usize>
    ensures { result ≡ feed_in text.now }
{
    text.iter().position(|b| *b == b'\n')
}
