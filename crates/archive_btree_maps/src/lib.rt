//! Archived B-tree maps and sets: reading, comparing, hashing and printing them, and lending their values to be
//! written.
#![tactic(auto)]

pub mod map;
pub mod nodes;
pub mod set;
pub mod walking;

pub use map::{
    ArchivedBTreeMap, BTreeMapResolver, InvalidLength, IterSeal, Keys, Range, RangeSeal, Values,
    ValuesSeal, eq_btree_map, eq_btree_map_with, eq_map, equal_maps_are_hashed_alike,
    found_is_present, map_equalities_are_equivalences, map_is_read, maps_are_equal_by_entries,
    maps_are_hashed_by_entries, one_map,
};
pub use set::{
    ArchivedBTreeSet, BTreeSetResolver, eq_btree_set, equal_sets_are_hashed_alike,
    set_equalities_are_equivalences, set_is_read, sets_are_equal_by_keys, sets_are_hashed_by_keys,
};
