// AES-128 and what is made of it: the cipher (FIPS 197, encryption only), CMAC (SP 800-38B), counter blocks.
#![tactic(auto)]

pub mod aes;
pub mod cmac;
pub mod columns;
mod numbers;
mod rounds;
mod tables;

pub use tables::sub_byte;
