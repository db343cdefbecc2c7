//! Hash tables by the positions of their places: iterators over the places and the items, cursors that lend one item or
//! value at a time, and look-ups of items.

mod buckets;
mod cursors;
mod equal;
mod hashed;
mod iter;
mod keyed;
mod laws;
mod lookup;
mod passing;
mod places;
mod raw_cursor;

pub use buckets::{BucketsAt, buckets_at, number_at};
pub use cursors::{IterMut, ValuesMut};
pub use equal::{has_equal, search_equal};
pub use hashed::{HashedKey, HashedLeaf};
pub use iter::{FullPlaces, RawIter, full_places_at, raw_iter_at};
pub use keyed::{search_key, search_with, value_position};
pub use laws::{items_descend, keys_stay, one_hash, one_table, table_is_read, table_stays};
pub use lookup::{position_of, search_table};
pub use passing::EntryAt;
pub use raw_cursor::RawIterSeal;
