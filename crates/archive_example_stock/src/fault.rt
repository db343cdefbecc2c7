//! The errors that end the program.
use archive_core::Error;
use std::io;
use thiserror::Error as Described;

/// An error that ends the program early.
#[derive(Debug, Drop, Described)]
pub enum Fault {
    #[error("archive: {0}")]
    Archive(Error),
    #[error("print: {0}")]
    Print(io::Error),
}

impl From<Error> for Fault {
    fn from(refusal: Error) -> Fault {
        Fault::Archive(refusal)
    }
}

impl From<io::Error> for Fault {
    fn from(refusal: io::Error) -> Fault {
        Fault::Print(refusal)
    }
}
