//! Sessions: the lines of a source, carried out in a document.
ghost use Rattle.std.specs.Prelude.{◌≡◌};

mod editing;
mod lines;

pub use editing::edit_document;
pub use lines::LineReader;
use thiserror::Error;

/// The number of lines that were carried out, and the number of edits among them that were done.
#[derive(Clone, Copy, Debug, PartialEq, Eq)]
pub struct Count {
    pub lines: u64,
    pub edits: u64,
}

/// Why a session ended before the end of its input.
#[derive(Clone, Copy, Debug, PartialEq, Eq, Error)]
pub enum RunCause {
    /// The source failed.
    #[error("the source failed")]
    Read,
    /// The writer failed, or one of its allocations failed.
    #[error("the writer failed")]
    Write,
    /// An allocation for a line failed.
    #[error("out of memory")]
    OutOfMemory,
    /// A line has more than 1,048,576 bytes.
    #[error("a line is too long")]
    LineTooLong,
    /// The input has more than 4,294,967,295 bytes.
    #[error("the input is too long")]
    InputTooLong,
}

/// The cause that ended a session, with the number of lines that were carried out and of edits that were done.
#[derive(Clone, Copy, Debug, PartialEq, Eq, Error)]
#[error("{cause} after {lines} lines, {edits} of them edits")]
pub struct RunFault {
    pub cause: RunCause,
    pub lines: u64,
    pub edits: u64,
}

impl RunFault {
    /// Returns the fault of a cause after the lines and edits of `count`.
    pub fn after(count: Count, cause: RunCause) -> RunFault
        ensures cause { result.cause ≡ cause }
        ensures lines { result.lines ≡ count.lines }
        ensures edits { result.edits ≡ count.edits }
    {
        RunFault {
            cause,
            lines: count.lines,
            edits: count.edits,
        }
    }
}
