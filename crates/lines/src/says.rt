// What is printed for a call's answer.
ghost use Rattle.std.specs.Prelude.{◌≡◌, ◌≤◌, length, take, Some};
ghost use Rattle.std.specs.Result.{MatchResult};
ghost use Rattle.printing.specs.Replies.{fault_line};
ghost use Rattle.lines.specs.LineReplies.{done_line, swap_line};

use faults::fault::Fault;
use printing::printed::Printed;
use printing::replies::{print_code, print_fault, print_ok};

// A call that gives no code.
pub(crate) fn say_done(lane: u8, answer: Result<(), Fault>) -> Printed
    ensures value { result ≡ done_line (Some lane) answer }
    ensures short { length result ≤ 48 }
{
    say(lane, answer.map(|()| print_ok(Some(lane))))
}

// A mask or an unmask, with the text that it leaves, of which no more than 32 bytes are printed.
pub(crate) fn say_swapped(lane: u8, answer: Result<(), Fault>, text: &[u8]) -> Printed
    ensures value { result ≡ swap_line lane answer (take 32 text.now) }
    ensures short { length result ≤ 48 }
{
    say(lane, answer.map(|()| print_code(Some(lane), text)))
}

// The line of a call that was done, or that of its refusal.
fn say(lane: u8, line: Result<Printed, Fault>) -> Printed
    ensures { MatchResult line (λ p. result ≡ p) (λ fault. (result ≡ fault_line (Some lane) fault) × (length result ≤ 48)) }
{
    line.unwrap_or_else(|fault| print_fault(Some(lane), fault))
}
