// Lines read from an input, and answered on an output.
use crate::cut::{LF, cut_first};
use crate::replies::Replies;
use crate::session::{Session, open_session};
use crate::waiting::Waiting;
use ciphers::cipher::FormatCipher;
use coder::coder::Coder;
use lines::answer::answer_line;
use lines::block::answer_block;
use printing::printed::Printed;
use std::io;
use std::io::{Read, Write};

// How many lines are answered before what is printed for them is gathered.
const AT_A_TIME: usize = 64;

// Serves a session. The input is read in blocks; each complete line of a block is answered, and the answers are
// written, before more is read. The last line may lack its LF. A first line that is refused ends the session.
pub fn serve<R: Read, W: Write>(input: &mut R, output: &mut W) -> io::Result<()> {
    let mut waiting = Waiting::new();
    await_line(&mut waiting, input)?;
    if waiting.bytes().is_empty() {
        return Ok(());
    }
    let (line, rest) = cut_first(waiting.bytes());
    let (session, printed) = open_session(line);
    waiting.keep_last(rest);
    let mut replies = Replies::new(output);
    replies.put(&printed)?;
    // The last two arms differ in the type of the coder alone, and each type has lines served by code of its own.
    match session {
        None => replies.write(),
        Some(Session::Codebook(mut coder)) => {
            serve_lines(&mut coder, &mut waiting, input, &mut replies)
        }
        Some(Session::Network(mut coder)) => {
            serve_lines(&mut coder, &mut waiting, input, &mut replies)
        }
    }
}

// Reads until a line ends, or the input does.
fn await_line<R: Read>(waiting: &mut Waiting, input: &mut R) -> io::Result<()> {
    // It ends where a line or the input ends: the count is so high that no run reaches it.
    for _ in 0..u64::MAX {
        waiting.shorten();
        if waiting.read(input)? == 0 || waiting.bytes().contains(&LF) {
            break;
        }
    }
    Ok(())
}

// Serves the lines after the first one, those that wait and then those still to be read.
fn serve_lines<T: FormatCipher, R: Read, W: Write>(
    coder: &mut Coder<T>,
    waiting: &mut Waiting,
    input: &mut R,
    replies: &mut Replies<'_, W>,
) -> io::Result<()> {
    // It ends where the input ends: the count is so high that no run reaches it.
    for _ in 0..u64::MAX {
        let rest = answer_lines(coder, waiting.bytes(), replies)?;
        replies.write()?;
        waiting.keep_last(rest);
        waiting.shorten();
        if waiting.read(input)? == 0 {
            break;
        }
    }
    answer_last(coder, waiting.bytes(), replies)
}

// Answers each complete line of a block, some at a time, and says how many bytes stand after the last one.
fn answer_lines<T: FormatCipher, W: Write>(
    coder: &mut Coder<T>,
    block: &[u8],
    replies: &mut Replies<'_, W>,
) -> io::Result<usize> {
    let mut slots = [Printed::new(); AT_A_TIME];
    let mut rest = block;
    // The outer loop has a name, so that its proof tells it from the loop inside it.
    'lines: loop {
        let progress = answer_block(coder, rest, &mut slots);
        for printed in slots.iter().take(progress.lines) {
            replies.put(printed)?;
        }
        rest = &rest[progress.used..];
        if progress.lines < AT_A_TIME {
            return Ok(rest.len());
        }
    }
}

// Answers the last line where it has no LF.
fn answer_last<T: FormatCipher, W: Write>(
    coder: &mut Coder<T>,
    line: &[u8],
    replies: &mut Replies<'_, W>,
) -> io::Result<()> {
    if !line.is_empty() {
        replies.put(&answer_line(coder, line))?;
    }
    replies.write()
}
