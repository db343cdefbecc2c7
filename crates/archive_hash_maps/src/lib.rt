//! Archived hash tables, maps and sets: how they are read, lent for writing, compared and printed.
#![tactic(auto)]

pub mod checking;
pub mod map;
pub mod set;
pub mod walking;

pub use map::{
    ArchivedHashMap, ArchivedHashTable, EntryAt, FullPlaces, HashMapResolver, HashTableResolver,
    HashedKey, InvalidLength, IterMut, Keys, RawIter, RawIterSeal, Values, ValuesMut,
    found_is_present, items_descend, keys_stay, one_hash, one_table, table_is_read, table_stays,
};
pub use set::{ArchivedHashSet, HashSetResolver, eq_hash_map, eq_hash_set};
