//! Maps and sets of std, archived as search trees and read back; entries that come in order are archived in the same
//! way. The archived map and set, and the map's iterators, are re-exported here.
#![tactic(auto)]

mod archive;
mod archive_set;
mod deserialize;
mod entries;
pub mod laws;
mod map;
mod node_writer;
mod ordered;
mod ordered_keys;
mod read_set;
mod serialize;
mod serialize_set;
mod set;

pub use archive_btree_maps::map::Iter;
pub use archive_btree_maps::nodes::check_btree_each;
pub use archive_btree_maps::set::Iter as SetIter;
pub use archive_btree_maps::{
    ArchivedBTreeMap, ArchivedBTreeSet, BTreeMapResolver, BTreeSetResolver, InvalidLength,
    IterSeal, Keys, Range, RangeSeal, Values, ValuesSeal, eq_btree_map, eq_btree_map_with,
    eq_btree_set, eq_map,
};
pub use archive_forms_writing::{EntryParts, EntryStep, SerializeEntry};
pub use deserialize::deserialize_map_each;
pub use entries::serialize_entries_with_each;
pub use map::OwnedBTreeMap;
pub use ordered::{serialize_from_ordered_iter, serialize_from_ordered_iter_each};
pub use ordered_keys::serialize_set_from_ordered_iter;
pub use read_set::deserialize_set_each;
pub use serialize::serialize_map_each;
pub use serialize_set::serialize_set_each;
pub use set::OwnedBTreeSet;
