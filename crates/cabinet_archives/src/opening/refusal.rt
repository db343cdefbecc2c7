//! Why bytes are not opened as the archive of a document.
ghost use Rattle.cabinet_archives.specs.Refused.{IsRefusalFor};

use archive_shape_layout::Error;
use thiserror::Error as Described;

/// Why bytes are not opened as an archive.
#[derive(Clone, Copy, Debug, PartialEq, Eq, Described)]
pub enum OpenRefusal {
    /// The bytes hold no node at their root.
    #[error("the bytes are not an archive: {0}")]
    Access(Error),
    /// A container lies inside 64 others.
    #[error("more than 64 containers lie in one another")]
    TooDeep,
    /// A key of an ordered map is not above the one before it.
    #[error("the keys of an ordered map do not ascend")]
    KeysNotAscending,
    /// In a hashed or kept map the control of a key is not the tag of the key's hash.
    #[error("a control of a map is not the tag of its key")]
    WrongTag,
    /// A look-up of a key of a hashed or kept map does not find it at its place, or under its number.
    #[error("a key of a map is not found at its place")]
    NotFound,
    /// An allocation failed.
    #[error("out of memory")]
    OutOfMemory,
}

/// Returns the refusal for the error of an access.
pub(crate) fn refused(error: Error) -> OpenRefusal
    ensures { IsRefusalFor error result }
{
    match error {
        Error::OutOfMemory => OpenRefusal::OutOfMemory,
        error => OpenRefusal::Access(error),
    }
}
