//! Archived B-tree maps: the type and all that it implements.

mod comparing;
mod debug;
mod hashing;
mod laws;
mod lookup;
mod map;
mod range;
mod resolving;
mod sealing;
mod std_map;
mod walking;

pub use crate::walking::{
    Iter, IterSeal, Keys, Range, RangeSeal, Values, ValuesSeal, map_is_read, one_map,
};
/// The error of a leaf that says more entries than fit in a node.
pub use archive_shape::Error::NodeLength as InvalidLength;
pub use comparing::eq_map;
pub use laws::{
    equal_maps_are_hashed_alike, found_is_present, map_equalities_are_equivalences,
    maps_are_equal_by_entries, maps_are_hashed_by_entries,
};
pub use map::ArchivedBTreeMap;
pub use resolving::BTreeMapResolver;
pub use std_map::{eq_btree_map, eq_btree_map_with};
