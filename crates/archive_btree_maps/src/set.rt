//! Archived B-tree sets: the type and all that it implements.

mod comparing;
mod debug;
mod hashing;
mod laws;
mod lookup;
mod resolving;
mod set;
mod walking;

pub use comparing::eq_btree_set;
pub use laws::{
    equal_sets_are_hashed_alike, set_equalities_are_equivalences, set_is_read,
    sets_are_equal_by_keys, sets_are_hashed_by_keys,
};
pub use resolving::BTreeSetResolver;
pub use set::ArchivedBTreeSet;
pub use walking::Iter;
