// Walking the cycle: a cipher swapped on until a rule says yes.
#![tactic(auto)]

mod count;
pub mod cycle;
pub mod laws;
