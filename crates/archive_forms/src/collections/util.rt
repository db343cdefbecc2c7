//! Entries of maps.
pub use archive_forms_values::Entry;
pub use archive_forms_writing::{EntryAdapter, EntryResolver, serialize_entry_each};
/// The error of an iterator that does not return as many items as are claimed.
pub use archive_shape::Error::IteratorLengthMismatch;
