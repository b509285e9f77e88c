// The block cipher as a static library, for callers in C or Rust.
#![tactic(auto)]

pub mod ffi;
