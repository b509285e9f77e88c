// The codebook: a cipher over formats that have few codes, by one box over all of them.
#![tactic(auto)]

pub mod book;
pub mod laws;
