//! The error type of the archive crates.
ghost use Rattle.archive_shape_layout.specs.declared.error.Error.TheVariants.{OutOfMemory};
ghost use Rattle.std.specs.Prelude.{◌≡◌};

use std::alloc::{AllocError, AllocFailed};
use thiserror::Error as Described;

/// An error of the archive crates. Its `Display` is the message given with the variant.
#[derive(Debug, Clone, Copy, PartialEq, Eq, Described)]
pub enum Error {
    #[error("the pointer's target is not a multiple of {align}")]
    Unaligned { align: usize },
    #[error("a region of {size} bytes leaves the range")]
    InvalidSubtreePointer { size: usize },
    #[error("the subtrees nest too deep")]
    ExceededMaximumSubtreeDepth,
    #[error("a pop where no push is open")]
    RangePoppedTooManyTimes,
    #[error("a pop out of order")]
    RangePoppedOutOfOrder,
    #[error("a shared position of another type")]
    TypeMismatch,
    #[error("a shared position of another length")]
    MetadataMismatch,
    #[error("a shared position inside itself")]
    CyclicSharedPointer,
    #[error("a tag that is not legal")]
    InvalidTag,
    #[error("the text is not UTF-8")]
    InvalidUtf8,
    #[error("a short text out of line")]
    CheckStringRepr,
    #[error("the text is too long")]
    StringTooLong,
    #[error("the length is too large")]
    LengthTooLarge,
    #[error("the position is too large")]
    PositionTooLarge,
    #[error("the offset does not fit")]
    IsizeOverflow,
    #[error("the buffer is too short")]
    BufferOverflow,
    #[error("never started")]
    NotStarted,
    #[error("finished already")]
    AlreadyFinished,
    #[error("iterator claimed that it contained {expected} elements, but yielded {actual} items during iteration")]
    IteratorLengthMismatch { expected: usize, actual: usize },
    #[error("the load factor is not a fraction up to one")]
    InvalidLoadFactor,
    #[error("a table of capacity {cap} claims {len} items")]
    TableLength { len: usize, cap: usize },
    #[error("the control byte at {index} does not repeat")]
    UnwrappedControlByte { index: usize },
    #[error("the table has {actual} items, and claims {expected}")]
    WrongNumberOfElements { expected: usize, actual: usize },
    #[error("a place outside the entries")]
    InvalidPlace,
    #[error("Invalid length in B-tree node: len {len} was greater than maximum {maximum}")]
    NodeLength { len: usize, maximum: usize },
    #[error("B-tree map claimed to have {len} entries, but actually had {entries}")]
    EntriesLengthMismatch { entries: usize, len: usize },
    #[error("too many levels")]
    TooManyLevels,
    #[error("the writer failed")]
    WriterFailed,
    #[error("out of memory")]
    OutOfMemory,
}

impl From<AllocError> for Error {
    ghost from_gives = { λ _ r. r ≡ OutOfMemory };

    fn from(_refused: AllocError) -> Error {
        Error::OutOfMemory
    }
}

impl<T: Drop> From<AllocFailed<T>> for Error {
    ghost from_gives = { λ _ r. r ≡ OutOfMemory };

    fn from(refused: AllocFailed<T>) -> Error {
        AllocError::from(refused).into()
    }
}
