// What the lines of the program `bincards` spell.
#![tactic(auto)]

pub mod command;
pub mod first;
pub mod laws;
mod words;
