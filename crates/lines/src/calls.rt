// The calls that commands ask for, and the lines to print for them.
ghost use Rattle.std.specs.Prelude.{Some, ◌≡◌, ◌≤◌, length};
ghost use Rattle.coder.specs.Called.{Called};
ghost use Rattle.coder.specs.Calls.{turns};
ghost use Rattle.commands.specs.Commands.{start, as_spelled};
ghost use Rattle.lines.specs.Answers.{Answered, asked};
ghost use Rattle.lines.specs.LineReplies.{done_line};

use crate::says::{say_done, say_swapped};
use arrayvec::ArrayVec;
use ciphers::cipher::FormatCipher;
use ciphers::way::Way;
use coder::coder::Coder;
use commands::command::Command;
use faults::fault::Fault;
use formats::shape::Shape;
use printing::printed::Printed;
use printing::replies::print_ok;

// Codes are cut to this length, which is one more than any shape has: a longer code is refused for its length
// alike when it is cut.
const CUT: usize = 33;

// Makes the call of a command.
pub(crate) fn answer_command<T: FormatCipher>(coder: &mut Coder<T>, command: Command<'_>) -> Printed
    ensures { Answered T.FormatCipher.meaning coder.old coder.new (Some (as_spelled command.entry)) result }
{
    match command {
        Command::Start { lane, run, shape } => answer_start(coder, lane, run, shape),
        Command::End { lane } => say_done(lane, coder.end(lane)),
        Command::Mask { lane, code } => answer_swap(coder, Way::Forward, lane, code),
        Command::Unmask { lane, code } => answer_swap(coder, Way::Backward, lane, code),
        Command::Restart => {
            coder.restart();
            print_ok(None)
        }
    }
}

// A start.
fn answer_start<T: FormatCipher>(
    coder: &mut Coder<T>,
    lane: u8,
    run: &[u8],
    shape: &[u8],
) -> Printed
    ensures { Answered T.FormatCipher.meaning coder.old coder.new (Some (start lane run.now shape.now)) result }
{
    let answer = read_and_start(coder, lane, run, shape);
    say_done(lane, answer)
}

// The call of a start; its shape is read first.
fn read_and_start<T: FormatCipher>(
    coder: &mut Coder<T>,
    lane: u8,
    run: &[u8],
    shape: &[u8],
) -> Result<(), Fault>
    ensures { (p : Printed) → p ≡ done_line (Some lane) result → length p ≤ 48
        → Answered T.FormatCipher.meaning coder.old coder.new (Some (start lane run.now shape.now)) p }
{
    coder.start(lane, run, &Shape::read(shape)?)
}

// A mask or an unmask, on a copy of the code.
fn answer_swap<T: FormatCipher>(coder: &mut Coder<T>, way: Way, lane: u8, code: &[u8]) -> Printed
    ensures { Answered T.FormatCipher.meaning coder.old coder.new (Some (asked way lane code.now)) result }
{
    let most = code.len().min(CUT);
    let mut text: ArrayVec<u8, CUT> = ArrayVec::try_from(&code[..most]).unwrap();
    swap_text(coder, way, lane, text.as_mut_slice())
}

// The same of a text that is swapped where it stands.
fn swap_text<T: FormatCipher>(coder: &mut Coder<T>, way: Way, lane: u8, text: &mut [u8]) -> Printed
    ensures { Answered T.FormatCipher.meaning coder.old coder.new (Some (asked way lane text.old)) result }
{
    let answer = call_swap(coder, way, lane, text);
    say_swapped(lane, answer, text)
}

// The call of a swap: a mask or an unmask, by its way.
fn call_swap<T: FormatCipher>(
    coder: &mut Coder<T>,
    way: Way,
    lane: u8,
    text: &mut [u8],
) -> Result<(), Fault>
    ensures { Called T.FormatCipher.meaning coder.old coder.new (turns way lane text.old) (record { answer = result; text = text.new }) }
{
    match way {
        Way::Forward => coder.mask(lane, text),
        Way::Backward => coder.unmask(lane, text),
    }
}
