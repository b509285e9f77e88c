// A lane, by its number.
ghost use Rattle.std.specs.Prelude.{◌≡◌, ◌-◌, ◌<◌, true, false, MatchResult};
ghost use Rattle.faults.specs.Faults.{own};
ghost use Rattle.coder.specs.Machine.{is_lane};

use faults::fault::{Cause, Fault};

// One of the eight lanes: 1 to 8.
#[derive(Clone, Copy)]
pub(crate) struct Lane {
    number: u8,
    ghost real: { is_lane number ≡ true },
}

impl Lane {
    // The lane of a number.
    pub(crate) fn new(number: u8) -> Result<Lane, Fault>
        ensures { MatchResult result (λ lane. (is_lane number ≡ true) × (lane.number ≡ number)) (λ fault. (is_lane number ≡ false) × (fault ≡ own Cause.Lane)) }
    {
        if (1..=8).contains(&number) {
            Ok(Lane { number })
        } else {
            Err(Fault::own(Cause::Lane))
        }
    }

    // Its place among the eight, counted from 0.
    pub(crate) fn place(self) -> usize
        ensures value { result ≡ self.number - 1 }
        ensures small { result < 8 }
    {
        (self.number - 1).into()
    }
}
