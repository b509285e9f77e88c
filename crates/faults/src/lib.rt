// How a refusal is told.
#![tactic(auto)]

pub mod fault;
