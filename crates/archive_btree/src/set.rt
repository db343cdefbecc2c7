//! The type of sets of std that can be archived.
ghost use Rattle.std.specs.Prelude.{◌≡◌, ◌<◌, []};

use std::alloc::Global;
use std::collections::BTreeSet;

/// A set of std that is archived as a set in a search tree with at most `E` keys per node. If it has a key, `E` is not
/// 0.
#[derive(Drop)]
pub struct OwnedBTreeSet<K: Ord, const E: usize> {
    pub set: BTreeSet<K, Global>,
    pub ghost some: { (set.keys ≡ [] → ⊥) → 0 < E },
}
