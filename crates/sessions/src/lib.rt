// Sessions of the program `bincards`: a first line that opens a cipher, and the lines after it.
#![tactic(auto)]

mod cut;
mod replies;
pub mod serve;
pub mod session;
mod waiting;
