// The eight lanes of a coder.
ghost use Rattle.std.specs.Prelude.{◌≡◌, ◌-◌, replicate, None, slice_set};
ghost use Rattle.std.specs.Option.{option_map};
ghost use Rattle.coder.specs.Records.{named, seen, running};
ghost use Rattle.coder.specs.Steps.{lane_at};

use crate::lane::Lane;
use crate::record::Record;
use faults::fault::{Cause, Fault};
use std::marker::Model;

// The record of each lane that has a run, in the order of the lanes.
#[derive(Drop)]
pub struct Lanes {
    records: [Option<Record>; 8],
}

// In contracts the lanes are what each is under: a run and a shape, or nothing.
impl Model for Lanes {
    ghost use Rattle.std.specs.Prelude.{List, Option};
    ghost use Rattle.coder.specs.Machine.{Held};
    ghost use Rattle.coder.specs.Records.{views};

    ghost Value = { List (Option Held) };

    ghost view = { λ l. views l.records };
}

impl Lanes {
    // Eight lanes without a run.
    pub(crate) fn new() -> Lanes
        ensures { result ≡ replicate 8 None }
    {
        Lanes { records: [None; 8] }
    }

    // The record of a lane, if it has a run.
    pub(crate) fn at(&self, lane: Lane) -> Option<Record>
        ensures { option_map named result ≡ lane_at self.now lane.number }
    {
        self.records[lane.place()]
    }

    // The record of a lane that must have a run.
    pub(crate) fn running(&self, lane: Lane) -> Result<Record, Fault>
        ensures { seen result ≡ running (lane_at self.now lane.number) }
    {
        self.at(lane).ok_or(Fault::own(Cause::LaneHasNoRun))
    }

    // Gives a lane a run and a shape, or takes them away.
    pub(crate) fn set(&mut self, lane: Lane, held: Option<Record>)
        ensures { self.new ≡ slice_set self.old (lane.number - 1) (option_map named held) }
    {
        self.records[lane.place()] = held;
    }

    // Takes every run away.
    pub(crate) fn clear_all(&mut self)
        ensures { self.new ≡ replicate 8 None }
    {
        self.records = [None; 8];
    }
}
