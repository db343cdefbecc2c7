//! Archived hash sets, and comparisons of archived hash maps and sets with those of std.

mod debug;
mod equal;
mod lookup;
mod resolving;
mod set;
mod std_map;
mod std_set;

pub use resolving::HashSetResolver;
pub use set::{ArchivedHashSet, Iter};
pub use std_map::eq_hash_map;
pub use std_set::eq_hash_set;
