//! Archived index maps: their entries in order, and look-ups of keys.

mod calling;
mod debug;
mod deserialize;
pub(crate) mod entries;
mod equal;
mod hashing;
mod iter;
mod keys;
mod laws;
mod map;
mod resolving;
mod seal;
mod search;
mod visit;

pub use deserialize::deserialize_index_map_each;
pub use iter::{Iter, Keys, Values};
pub use laws::{map_is_read, one_map};
pub use map::ArchivedIndexMap;
pub use search::search_entries;
