// Why a line has no answer.
use faults::fault::Fault;
use std::alloc::AllocError;
use std::io;
use thiserror::Error;

#[derive(Debug, Drop, Error)]
pub enum Unanswered {
    // a word of the line is missing, too many, or none that the command takes
    #[error("unreadable")]
    Unreadable,
    // a call refused what the line asks for
    #[error("{0}")]
    Refused(#[from] Fault),
    // the answer could not be printed
    #[error(transparent)]
    Unprinted(#[from] io::Error),
    // there was no memory for the answer
    #[error(transparent)]
    Memory(#[from(alloc)] AllocError),
}
