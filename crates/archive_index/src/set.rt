//! Archived index sets: their keys in order, and look-ups of keys.

mod debug;
mod deserialize;
mod equal;
mod lookup;
mod resolving;
mod set;

pub use deserialize::deserialize_index_set_each;
pub use resolving::IndexSetResolver;
pub use set::ArchivedIndexSet;
