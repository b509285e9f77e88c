// Rules: which codes of a shape are wanted.
#![tactic(auto)]

mod codes;
pub mod laws;
pub mod luhn;
pub mod nonzero_lead;
pub mod rule;
