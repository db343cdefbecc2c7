//! Sets of std that are archived.

use std::collections::HashSet;
use std::hash::Hash;

/// A set of std that is archived as a set in a hash table, by the hashes of its keys.
#[derive(Drop)]
pub struct OwnedHashSet<K: Eq + Hash> {
    pub set: HashSet<K>,
}
