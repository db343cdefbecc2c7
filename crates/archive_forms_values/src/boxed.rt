//! Archived boxes of slices and of texts: their checks, their reading and their writing.
//!
//! Each is a pointer of eight bytes: an offset of four bytes that leads to the elements or the text, and four bytes
//! with the number of elements, or of bytes of the text.

mod boxed_slice;
mod boxed_str;
mod key;
mod resolving;

pub use boxed_slice::{ArchivedBoxedSlice, check_boxed_slice_each};
pub use boxed_str::ArchivedBoxedStr;
