// What the program `bincards` prints for a line.
#![tactic(auto)]

pub mod printed;
pub mod replies;
