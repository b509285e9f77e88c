// The lines after the first one: what each asks of the coder.
ghost use Rattle.std.specs.Prelude.{◌≡◌, ◌∷◌, codes};
ghost use Rattle.std.specs.Option.{option_map};
ghost use Rattle.text.specs.Readers.{words_left};
ghost use Rattle.commands.specs.Commands.{mask, unmask, read_words, spelled, as_spelled};

use crate::words::{end, next_lane, next_word, only_byte};
use text::reader::Reader;

// The most bytes that a line may have.
pub const MOST_BYTES: usize = 4096;

// What a line asks for: a case for each of S, E, M, U and R. The run, the shape's text and the code are parts of the
// line.
#[derive(Clone, Copy)]
pub enum Command<'a> {
    Start {
        lane: u8,
        run: &'a [u8],
        shape: &'a [u8],
    },
    End {
        lane: u8,
    },
    Mask {
        lane: u8,
        code: &'a [u8],
    },
    Unmask {
        lane: u8,
        code: &'a [u8],
    },
    Restart,
}

// The command that a line spells, or `None` where the line is unreadable.
pub fn read_command<'a>(line: &'a [u8]) -> Option<Command<'a>>
    ensures { option_map as_spelled result ≡ spelled line.now }
{
    if line.len() > MOST_BYTES {
        return None;
    }
    let mut words = Reader::new(line);
    let name = next_word(&mut words)?;
    match only_byte(name)? {
        b'S' => start(&mut words),
        b'E' => finish(&mut words),
        b'M' => mask(&mut words),
        b'U' => unmask(&mut words),
        b'R' => restart(&mut words),
        _ => None,
    }
}

// `S`, a lane, a run and a shape, after the `S`.
fn start<'a>(words: &mut Reader<'a>) -> Option<Command<'a>>
    ensures { option_map as_spelled result ≡ read_words (codes "S" ∷ words_left words.old) }
{
    let lane = next_lane(words)?;
    let run = next_word(words)?;
    let shape = next_word(words)?;
    end(words)?;
    Some(Command::Start { lane, run, shape })
}

// `E` and a lane, after the `E`.
fn finish<'a>(words: &mut Reader<'a>) -> Option<Command<'a>>
    ensures { option_map as_spelled result ≡ read_words (codes "E" ∷ words_left words.old) }
{
    let lane = next_lane(words)?;
    end(words)?;
    Some(Command::End { lane })
}

// `M`, a lane and a code, after the `M`.
fn mask<'a>(words: &mut Reader<'a>) -> Option<Command<'a>>
    ensures { option_map as_spelled result ≡ read_words (codes "M" ∷ words_left words.old) }
{
    let (lane, code) = lane_and_code(words)?;
    Some(Command::Mask { lane, code })
}

// `U`, a lane and a code, after the `U`.
fn unmask<'a>(words: &mut Reader<'a>) -> Option<Command<'a>>
    ensures { option_map as_spelled result ≡ read_words (codes "U" ∷ words_left words.old) }
{
    let (lane, code) = lane_and_code(words)?;
    Some(Command::Unmask { lane, code })
}

// A lane and a code, after an `M` or a `U`.
fn lane_and_code<'a>(words: &mut Reader<'a>) -> Option<(u8, &'a [u8])>
    ensures masked { option_map (λ p. mask p.0 p.1.now) result ≡ read_words (codes "M" ∷ words_left words.old) }
    ensures unmasked { option_map (λ p. unmask p.0 p.1.now) result ≡ read_words (codes "U" ∷ words_left words.old) }
{
    let lane = next_lane(words)?;
    let code = next_word(words)?;
    end(words)?;
    Some((lane, code))
}

// `R`, after the `R`.
fn restart<'a>(words: &mut Reader<'a>) -> Option<Command<'a>>
    ensures { option_map as_spelled result ≡ read_words (codes "R" ∷ words_left words.old) }
{
    end(words)?;
    Some(Command::Restart)
}
