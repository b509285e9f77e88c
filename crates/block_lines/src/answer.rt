// What a line is answered.
ghost use Rattle.std.specs.Prelude.{◌≡◌};
ghost use Rattle.text.specs.Hex.{bytes_of, in_place};
ghost use Rattle.text.specs.declared.hex.Letters.TheVariants.{Either};
ghost use Rattle.block_lines.specs.Answers.{tag_of, answer_of, left_of, Answered};

use crate::request::{Request, read_request};
use crate::unreadable::Unreadable;
use block_cipher::aes::Aes128;
use block_cipher::cmac::Cmac;
use text::hex;
use text::hex::Letters;

// The sixteen bytes that a line is answered, none for a line that asks for nothing, or why it is unreadable.
// A message is read where it stands, so that its bytes take the place of the first half of its digits; nothing
// else of the line is changed.
#[tactic(auto, unfolding(crate::specs::Answers::answer_to, crate::specs::Answers::answer_of, crate::specs::Answers::left_by, crate::specs::Answers::left_of))]
pub fn answer(line: &mut [u8]) -> Result<Option<[u8; 16]>, Unreadable>
    ensures value { result ≡ answer_of line.old }
    ensures after { line.new ≡ left_of line.old }
{
    let Some(request) = read_request(line)? else {
        return Ok(None);
    };
    match request {
        Request::Encrypt(key, block) => Ok(Some(Aes128::new(key).encrypt(block))),
        Request::Counter(key, iv, index) => Ok(Some(Aes128::new(key).counter_block(iv, index))),
        Request::Cmac(key, digits) => {
            let start = line.len().saturating_sub(digits);
            let tag = tag(key, &mut line[start..])?;
            Ok(Some(tag))
        }
    }
}

// Each form of line is answered what it asks for.
pub fn lines_are_answered()
    ensures { Answered }
{}

// The tag of the message that digits spell, which are read where they stand.
fn tag(key: [u8; 16], digits: &mut [u8]) -> Result<[u8; 16], Unreadable>
    ensures value { result ≡ tag_of key digits.old }
    ensures after { digits.new ≡ in_place digits.old (bytes_of Either digits.old) }
{
    let n = hex::decode(Letters::Either, digits).ok_or(Unreadable::Message)?;
    Ok(Cmac::new(key).tag(&digits[0..n]))
}
