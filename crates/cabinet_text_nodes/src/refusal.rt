//! The errors of creating a document from nodes.
use thiserror::Error;

/// The error of creating a document from nodes.
#[derive(Clone, Copy, Debug, PartialEq, Eq, Error)]
pub enum DocumentRefusal {
    /// A whole has the number of none that is before it, or of none of the document's.
    #[error("a whole has the number of none")]
    UnknownWhole,
    /// A container lies inside 64 containers.
    #[error("a container stands inside 64 others")]
    TooDeep,
    /// A kept map has a key twice.
    #[error("a map has a key twice")]
    RepeatedKey,
    /// The trees of two wholes are equal.
    #[error("two wholes are equal")]
    RepeatedWhole,
    /// A whole is not used, or not numbered in the order in which a walk first completes it.
    #[error("a whole is not used, or not numbered in the order in which a walk first completes it")]
    WholeOrder,
    /// An allocation was refused.
    #[error("out of memory")]
    OutOfMemory,
}
