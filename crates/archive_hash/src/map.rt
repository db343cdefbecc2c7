//! Maps of std that are archived, and the load factor of their tables.

use std::collections::HashMap;
use std::hash::Hash;

/// The load factor of the tables of maps and sets of std: at most seven of eight places are full.
pub const LOAD_FACTOR: (usize, usize) = (7, 8);

/// A map of std that is archived as a hash table of its entries, by the hashes of their keys.
#[derive(Drop)]
pub struct OwnedHashMap<K: Eq + Hash, V> {
    pub map: HashMap<K, V>,
}
