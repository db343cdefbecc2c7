//! Checks whether an archived hash set is equal to a set of std.
ghost use Rattle.archive_hash_maps.specs.Sets.{HasSet};
ghost use Rattle.archive_hash_maps.specs.Calls.Equal.{HasAllKeys, LacksKey};

use crate::set::ArchivedHashSet;
use crate::walking::HashedKey;
use archive_shape::Ref;
use std::alloc::Allocator;
use std::collections::HashSet;
use std::hash::{BuildHasher, Hash, Hasher};

/// Returns whether an archived set and a set of std are equal: whether they have the same number of keys, and the
/// archived one has each key of the set of std.
pub fn eq_hash_set<
    Q: Eq + Hash,
    K: HashedKey<Q>,
    H: Hasher + Default + Drop,
    S: BuildHasher,
    A: Allocator,
>(this: &Ref<'_, ArchivedHashSet<K, H>>, other: &HashSet<Q, S, A>) -> bool
    requires { HasSet K.shape K.knows this.now.bytes.now this.now.pos }
    ensures equal { HasAllKeys H.Default H.Hasher Q.hash_input K.key_of K.order K.shape this.now other.now.keys result }
    ensures unequal { LacksKey H.Default H.Hasher Q.hash_input K.key_of K.order K.shape this.now other.now.keys result }
{
    if ArchivedHashSet::len(*this) != other.len() {
        return false;
    }
    for key in other.iter() {
        if !ArchivedHashSet::contains(*this, key) {
            return false;
        }
    }
    true
}
