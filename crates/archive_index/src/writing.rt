//! Writes entries as index maps.

mod entries;
mod from_iter;
mod hashed;
mod iterators;
mod keys_from_iter;
mod numbers;
mod pair_with;

pub use entries::serialize_entries_with_each;
pub(crate) use entries::serialize_pairs_each;
pub use iterators::serialize_from_iter_scan_each;
pub(crate) use keys_from_iter::serialize_given_keys;
