//! Checks of archived bytes: contexts, and what a check accepts and refuses.
//!
//! A part is accepted where it has a value, and the regions that it claims ascend within a range and nest no deeper
//! than the range allows (specs/Accepts). Each part has a list of questions, which are asked in order
//! (specs/Questions). The fault of a part is the error of the first question, of the part itself or in its parts, that
//! is answered by no (specs/PartFault). A context keeps the range, its open pushes and the shared positions that were
//! seen (specs/Kept). The check of a type that implements `CheckBytes` returns `Ok` where its value is accepted. Else
//! it returns the error of the fault, except where it runs out of memory (specs/Checks). Elements are checked by a
//! step, a closure that checks one element at a position (specs/Steps).

mod array;
mod check;
mod context;
mod elements;
mod laws;

pub use archive_shape_layout::Error;
pub use array::check_array_each;
pub use check::{CheckBytes, check_leaf};
pub use context::{ArchiveContext, PushedRange, SharedContext, ValidationState};
pub use elements::check_slice_each;
pub use laws::{accepted_is_answered, deep_child_is_refused, fault_refuses, one_fault};
