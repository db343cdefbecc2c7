//! Entries of maps.
pub use archive_forms::collections::util::{
    Entry, EntryAdapter, EntryResolver, IteratorLengthMismatch, serialize_entry_each,
};
