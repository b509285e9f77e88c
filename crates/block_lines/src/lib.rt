// What each line of the program `blocktool` is answered.
#![tactic(auto)]

pub mod answer;
mod request;
pub mod unreadable;
