//! Archived index maps and sets, which keep the order of their entries: their check, how they are read and lent for
//! writing, how entries are written as one, and how one is read back.
#![tactic(auto)]

mod check;
pub mod laws;
pub mod map;
mod owned;
mod owned_set;
pub mod set;
mod writing;

pub use archive_hash_writing::index::IndexMapResolver;
pub use check::check_index_map_each;
pub use map::{
    ArchivedIndexMap, Iter, Keys, Values, deserialize_index_map_each, map_is_read, one_map,
    search_entries,
};
pub use owned::OwnedIndexMap;
pub use owned_set::OwnedIndexSet;
pub use set::{ArchivedIndexSet, IndexSetResolver, deserialize_index_set_each};
pub use writing::{serialize_entries_with_each, serialize_from_iter_scan_each};
