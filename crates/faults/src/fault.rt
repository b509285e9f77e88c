// Why a call was refused: a cause, a place and a depth.
ghost use Rattle.std.specs.Prelude.{◌≡◌};
ghost use Rattle.faults.specs.Faults.{number_of, own, placed, deeper};

use std::fmt;

// What a call can be refused for. The order is the order in which causes are looked for, except that an
// unreadable line comes first; `number` gives each its number.
#[derive(Clone, Copy, PartialEq, Eq, Debug)]
pub enum Cause {
    // a number handed to a call is outside the range that the call takes
    Range = 1,
    // a shape's text is not of its form
    ShapeText = 2,
    // a length of 0 or above 32
    Length = 3,
    // rounds below the least, too many layers, or rounds named at length 1
    Rounds = 4,
    // a lane that is not 1 to 8
    Lane = 5,
    // an illegal run name
    RunName = 6,
    // a start on a lane that has a run
    LaneHasRun = 7,
    // a shape that the cipher does not take, or a codebook with too many codes
    ShapeNotTaken = 8,
    // a call on a lane that has no run
    LaneHasNoRun = 9,
    // a code of another length than its shape's
    CodeLength = 10,
    // a byte or a number that is no symbol
    NotASymbol = 11,
    // a code that the cipher does not swap
    CodeBarred = 12,
    // too few coins
    CoinsShort = 13,
    // a pool file's mark, version, radix or size
    PoolFile = 14,
    // a pool row that is no permutation
    PoolRow = 15,
    // a line of the program that cannot be read
    Line = 16,
}

impl Cause {
    // The cause's number, from 1 to 16.
    pub fn number(self) -> u8
        ensures { result ≡ number_of self }
    {
        self as u8
    }
}

// A refusal. `place` says where (an index, a box, a row), and is 0 where a cause has no place. `depth` counts
// the calls that passed the refusal up.
#[derive(Clone, Copy, PartialEq, Eq, Debug)]
pub struct Fault {
    pub cause: Cause,
    pub place: usize,
    pub depth: u16,
}

impl Fault {
    // A call's own refusal.
    pub fn own(cause: Cause) -> Fault
        ensures { result ≡ own cause }
    {
        Fault {
            cause,
            place: 0,
            depth: 0,
        }
    }

    // The same refusal at a place.
    pub fn at(self, place: usize) -> Fault
        ensures { result ≡ placed self place }
    {
        Fault { place, ..self }
    }

    // The refusal as a caller passes it up: one deeper, and never deeper than 65,535.
    pub fn passed_up(self) -> Fault
        ensures { result ≡ deeper self }
    {
        let depth = self.depth.saturating_add(1);
        Fault { depth, ..self }
    }
}

// A refusal as it is printed: a mark, and its three numbers.
impl fmt::Display for Fault {
    ghost use Rattle.std.specs.Prelude.{Some};
    ghost use Rattle.faults.specs.FaultText.{text_of};

    ghost output = { λ f. Some (text_of f) };

    fn fmt<W: fmt::Write>(&self, f: &mut fmt::Formatter<W>) -> fmt::Result {
        let cause = self.cause.number();
        let place = self.place;
        let depth = self.depth;
        write!(f, "!{cause} {place} {depth}")
    }
}
