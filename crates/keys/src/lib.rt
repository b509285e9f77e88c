// What follows from the main key: derived keys, index sequences, and coins.
#![tactic(auto)]

mod derive;
pub mod distances;
pub mod encoding;
pub mod key_coins;
pub mod label;
pub mod laws;
mod lent;
pub mod sequence;
