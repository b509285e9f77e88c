// What each line of the program `bincards` is answered.
#![tactic(auto)]

pub mod answer;
pub mod block;
mod calls;
pub mod laws;
mod says;
