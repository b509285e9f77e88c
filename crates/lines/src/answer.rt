// A line, answered.
ghost use Rattle.lines.specs.Answers.{AnsweredLine};

use crate::calls::answer_command;
use ciphers::cipher::FormatCipher;
use coder::coder::Coder;
use commands::command::read_command;
use faults::fault::{Cause, Fault};
use printing::printed::Printed;
use printing::replies::print_fault;

// Makes the call that a line spells, and gives the line to print. A line that is unreadable, or spells a shape that
// does not exist, makes no call.
pub fn answer_line<T: FormatCipher>(coder: &mut Coder<T>, line: &[u8]) -> Printed
    ensures { AnsweredLine T.FormatCipher.meaning coder.old coder.new line.now result }
{
    match read_command(line) {
        None => print_fault(None, Fault::own(Cause::Line)),
        Some(command) => answer_command(coder, command),
    }
}
