// Why no line could be printed.
use std::alloc::AllocError;
use std::io;
use thiserror::Error;

#[derive(Debug, Drop, Error)]
pub enum ConferirFault {
    #[error("not enough memory for the input")]
    Memory(#[from(alloc)] AllocError),
    // Standard input could not be read, or standard output not written.
    #[error(transparent)]
    Stream(#[from] io::Error),
}
