//! How maps are archived as packed search trees, and that what is written is the one archive of the map.
//!
//! `btree_spelling` is made of the spellings of keys and of values. Its law says that what it writes is what the layout
//! reads, and is canonical. That law is the lemma `btree_spells` of `proofs`, because it is about every spelling. Each
//! function of `laws` and `packing` has no body; its contract is a law.
#![tactic(auto)]

mod packing;

pub use packing::{maps_are_packed, written_is_least, written_is_packed, written_is_read};

mod laws;

pub use laws::{maps_are_written, samples_are_spelled, six_pairs_are_written, trees_are_packed};
