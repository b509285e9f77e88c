// Ciphers over formats: what each promises, and the ciphers themselves.
#![tactic(auto)]

mod boxes;
pub mod checks;
pub mod cipher;
mod code;
pub mod fast;
pub mod key_pool;
mod reach;
pub mod way;
mod window;
