// Piles: layers over layers over ciphers, put together, and worked examples of all the parts.
#![tactic(auto)]

pub mod laws;
pub mod round_trip;
pub mod swap;
