// Layers: ciphers over formats that stand on other ciphers over formats.
#![tactic(auto)]

pub mod first_of;
pub mod keep_prefix;
pub mod laws;
