// What a first line of the program `bincards` opens: a walked codebook, or the network.
#![tactic(auto)]

pub mod book;
pub mod network;
