//! The archiving of what a pointer leads to.
//!
//! In Rust these traits are implemented by types of no fixed size. Here they are implemented by borrowed values: `&T`,
//! `&[T]` and `&str`.

mod pointed;
mod unsized_values;

pub use unsized_values::{ArchiveUnsized, SerializeUnsized, resolve_from_ref, serialize_from_ref};
