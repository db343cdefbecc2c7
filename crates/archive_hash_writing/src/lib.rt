//! Writes hash tables of the items that an iterator returns.
#![tactic(auto)]

pub mod index;
mod spelling;

pub use spelling::{each_is_filled, many_are_held, samples_are_spelled, tables_are_written};

mod buckets;
mod data;
mod fitting;
mod hashes;
mod iterators;
mod places;
mod region;
mod tables;

pub use hashes::hash_items;
pub use iterators::{
    serialize_from_iter, serialize_from_iter_scan, serialize_from_iter_scan_each,
    serialize_from_iter_scan_with_each,
};
pub use tables::serialize_hashed;
