// What codes look like: shapes, their least rounds, and the codes of a shape with their texts.
#![tactic(auto)]

pub mod code;
pub mod laws;
pub mod rounds;
pub mod shape;
