// The FAST network, codebooks and walks over both, for callers in C or Rust, from a static library.
#![tactic(auto)]

pub mod books;
pub mod ffi;
mod ready;
mod under;
