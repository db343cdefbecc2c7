//! Archives maps and sets of std as hash tables and reads them back, and archives entries that an iterator returns in
//! the same way. Exports also the archived map and set, and the map's iterators.
#![tactic(auto)]

mod archive;
mod archive_set;
mod deserialize;
mod entries;
mod entries_with;
mod entry_with;
mod from_iter;
mod keys;
mod keys_from_iter;
pub mod laws;
mod map;
mod read_set;
mod serialize;
mod serialize_set;
mod set;

pub use archive_forms_writing::{EntryParts, EntryStep, SerializeEntry};
pub use archive_hash_maps::checking::check_table_each;
pub use archive_hash_maps::map::Iter;
pub use archive_hash_maps::set::Iter as SetIter;
pub use archive_hash_maps::walking::{number_at, search_table, value_position};
pub use archive_hash_maps::{
    ArchivedHashMap, ArchivedHashSet, ArchivedHashTable, HashMapResolver, HashSetResolver,
    HashTableResolver, HashedKey, InvalidLength, IterMut, Keys, RawIter, RawIterSeal, Values,
    ValuesMut, eq_hash_map, eq_hash_set,
};
pub use archive_hash_probing::{
    Bitmask, FxHasher64, Group, Group1, Group8, Group16, MAX_GROUP_WIDTH, NonZeroWord, Scan, WIDTH,
    Word, hash_value,
};
pub use archive_hash_writing::{
    hash_items, serialize_from_iter, serialize_from_iter_scan, serialize_hashed,
};
pub use deserialize::deserialize_hash_map_each;
pub use entries::Entries;
pub use entries_with::serialize_entries_with_each;
pub use entry_with::EntryWith;
pub use from_iter::serialize_map_from_iter;
pub use keys::HashedKeyOf;
pub use keys_from_iter::{KeysBesideUnits, serialize_set_from_iter};
pub use map::{LOAD_FACTOR, OwnedHashMap};
pub use read_set::deserialize_hash_set_each;
pub use serialize::{serialize_map_each, serialize_map_scan_each};
pub use serialize_set::{serialize_set_each, serialize_set_scan_each};
pub use set::OwnedHashSet;
