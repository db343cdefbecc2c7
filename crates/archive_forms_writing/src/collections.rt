//! The archiving of the elements of slices and iterators as vectors, and of entries of borrowed keys and values.

mod elements;
mod entry;
mod slices;

pub use elements::{collect_items, serialize_from_iter, serialize_from_iter_each};
pub use entry::{EntryAdapter, EntryResolver, serialize_entry_each};
pub use slices::{resolve_from_slice, serialize_from_slice};
