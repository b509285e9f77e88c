// Which bytes write the symbols of a code, and which make a run name.
#![tactic(auto)]

pub mod alphabet;
pub mod laws;
pub mod run_name;
