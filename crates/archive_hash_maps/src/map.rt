//! Archived hash tables and maps: their items, look-ups, and writes over their values.

mod calling;
mod cursors;
mod debug;
mod equal;
mod iter;
mod keys;
mod laws;
mod lookup;
mod map;
mod map_iter;
mod resolving;
mod seal;
mod table;
mod visit;

pub use crate::walking::{
    EntryAt, FullPlaces, HashedKey, IterMut, RawIter, RawIterSeal, ValuesMut, items_descend,
    keys_stay, one_hash, one_table, table_is_read, table_stays,
};
/// The error of a table that says as many items as places, or more.
pub use archive_shape::Error::TableLength as InvalidLength;
pub use laws::found_is_present;
pub use map::ArchivedHashMap;
pub use map_iter::{Iter, Keys, Values};
pub use resolving::{HashMapResolver, HashTableResolver};
pub use table::ArchivedHashTable;
