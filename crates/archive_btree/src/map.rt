//! The type of maps of std that can be archived.
ghost use Rattle.std.specs.Prelude.{◌≡◌, ◌<◌, []};

use std::alloc::Global;
use std::collections::BTreeMap;

/// A map of std that is archived as a search tree with at most `E` entries per node. If it has an entry, `E` is not 0.
#[derive(Drop)]
pub struct OwnedBTreeMap<K: Ord, V, const E: usize> {
    pub map: BTreeMap<K, V, Global>,
    pub ghost some: { (map.entries ≡ [] → ⊥) → 0 < E },
}
