// Lines of text taken apart: the words of a line, and what hexadecimal digits spell.
#![tactic(auto)]

pub mod hex;
pub mod reader;
