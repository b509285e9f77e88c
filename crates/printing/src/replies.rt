// The lines that are printed.
ghost use Rattle.std.specs.Prelude.{◌≡◌, ◌≤◌, ◌++◌, length, take, codes};
ghost use Rattle.printing.specs.Replies.{lane_text, replied, ok_line, code_line, fault_line};
ghost use Rattle.printing.specs.Laws.{Decimal, Examples};

use crate::printed::Printed;
use faults::fault::Fault;

// The most bytes that a code has.
const MOST_SYMBOLS: usize = 32;

// A line that was done and gives no code.
pub fn print_ok(lane: Option<u8>) -> Printed
    ensures value { result ≡ ok_line lane }
    ensures short { length result ≤ 48 }
{
    reply(lane, b"ok")
}

// A line that gives a code. Of a code that is too long to be one, the first 32 bytes are printed.
pub fn print_code(lane: Option<u8>, code: &[u8]) -> Printed
    ensures value { result ≡ code_line lane (take 32 code.now) }
    ensures short { length result ≤ 48 }
{
    let most = code.len().min(MOST_SYMBOLS);
    reply(lane, &code[..most])
}

// A line that was refused: the number, the place and the depth of its fault.
// Part by part, not by the fault's `Display`: `write!` promises what was written only where it succeeds.
pub fn print_fault(lane: Option<u8>, fault: Fault) -> Printed
    ensures value { result ≡ fault_line lane fault }
    ensures short { length result ≤ 48 }
{
    let mut line = begin(lane);
    line.put(b"!");
    line.put_number(fault.cause.number());
    line.put(b" ");
    line.put_number(fault.place);
    line.put(b" ");
    line.put_number(fault.depth);
    line.put(b"\n");
    line
}

// Numbers are printed so that they are read as what they were, and lines as the examples have them.
pub fn lines_keep_their_laws()
    ensures decimal { Decimal }
    ensures examples { Examples }
{}

// A line that says a text on a lane.
fn reply(lane: Option<u8>, said: &[u8]) -> Printed
    requires { length said.now ≤ 32 }
    ensures value { result ≡ replied lane said.now }
    ensures short { length result ≤ 48 }
{
    let mut line = begin(lane);
    line.put(said);
    line.put(b"\n");
    line
}

// The start of a line: a lane, or a hyphen where there is none, and a space.
fn begin(lane: Option<u8>) -> Printed
    ensures text { result ≡ lane_text lane ++ codes " " }
    ensures few { length result ≤ 4 }
{
    let mut line = Printed::new();
    match lane {
        Some(k) => line.put_number(k),
        None => line.put(b"-"),
    }
    line.put(b" ");
    line
}
