// The lane coder: eight lanes, each with its own run, over one cipher.
#![tactic(auto)]

pub mod coder;
mod lane;
mod lanes;
pub mod list;
mod record;
