// Random coins, and what is made of them: numbers below a bound, and boxes (permutations with their inverses).
#![tactic(auto)]

pub mod bit;
pub mod bytes;
pub mod draw;
pub mod laws;
pub mod sbox;
pub mod source;
