// Pools: 256 boxes of one radix, from coins or from a file.
#![tactic(auto)]

pub mod laws;
pub mod pool;
