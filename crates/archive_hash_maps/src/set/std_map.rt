//! Checks whether an archived hash map is equal to a map of std.
ghost use Rattle.archive_hash_maps.specs.Maps.{HasMap};
ghost use Rattle.archive_hash_maps.specs.Calls.Equal.{FindsPair, HasAllPairs, LacksPair};

use crate::map::ArchivedHashMap;
use crate::walking::HashedKey;
use archive_shape::{ArchivedKey, Ref};
use std::alloc::Allocator;
use std::collections::HashMap;
use std::hash::{BuildHasher, Hash, Hasher};

/// Returns whether the map has a key, and the key's value is the same as `value`.
fn leads_to<Q: Hash, W, K: HashedKey<Q>, V: ArchivedKey<W>, H: Hasher + Default + Drop>(
    this: Ref<'_, ArchivedHashMap<K, V, H>>,
    key: &Q,
    value: &W,
) -> bool
    requires { HasMap K.shape V.shape K.knows V.knows this }
    ensures { FindsPair H.Default H.Hasher Q.hash_input K.key_of K.order K.shape V.key_of V.order V.shape this.entry (key.now, value.now) result }
{
    match ArchivedHashMap::get(this, key) {
        Some(found) => V::same(&found, value),
        None => false,
    }
}

/// Returns whether an archived map and a map of std are equal: whether they have the same number of pairs, and each key
/// of the map of std has the same value in the archived one.
pub fn eq_hash_map<
    Q: Eq + Hash,
    W,
    K: HashedKey<Q>,
    V: ArchivedKey<W>,
    H: Hasher + Default + Drop,
    S: BuildHasher,
    A: Allocator,
>(this: &Ref<'_, ArchivedHashMap<K, V, H>>, other: &HashMap<Q, W, S, A>) -> bool
    requires { HasMap K.shape V.shape K.knows V.knows this.now }
    ensures equal { HasAllPairs H.Default H.Hasher Q.hash_input K.key_of K.order K.shape V.key_of V.order V.shape this.now other.now.entries result }
    ensures unequal { LacksPair H.Default H.Hasher Q.hash_input K.key_of K.order K.shape V.key_of V.order V.shape this.now other.now.entries result }
{
    if ArchivedHashMap::len(*this) != other.len() {
        return false;
    }
    for (key, value) in other.iter() {
        if !leads_to(*this, key, value) {
            return false;
        }
    }
    true
}
