//! Look-ups of keys in archived hash sets.
ghost use Rattle.std.specs.Prelude.{IfSome};
ghost use Rattle.archive_forms_values.specs.Parts.{HasValue};
ghost use Rattle.archive_hash_maps.specs.Sets.{HasSet};
ghost use Rattle.archive_hash_maps.specs.Calls.Keys.{GetsElement, SaysElement};

use crate::map::ArchivedHashMap;
use crate::set::ArchivedHashSet;
use crate::set::set::as_map;
use crate::walking::HashedKey;
use archive_shape::Ref;
use std::hash::{Hash, Hasher};

impl<K, H: Hasher + Default + Drop> ArchivedHashSet<K, H> {
    /// Returns the archived key that is equal to the query, if the set has one.
    pub fn get<'a, Q: Hash>(this: Ref<'a, ArchivedHashSet<K, H>>, query: &Q) -> Option<Ref<'a, K>>
    where
        K: HashedKey<Q>,
        requires has { HasSet K.shape K.knows this.bytes.now this.pos }
        ensures there { IfSome result (λ r. HasValue K.shape K.knows r.bytes.now r.pos) }
        ensures answers { GetsElement H.Default H.Hasher Q.hash_input K.key_of K.order K.shape this.entry query.now result }
    {
        match ArchivedHashMap::get_key_value(as_map(this), query) {
            Some((key, _)) => Some(key),
            None => None,
        }
    }

    /// Returns whether the set has a key.
    pub fn contains<Q: Hash>(this: Ref<'_, ArchivedHashSet<K, H>>, query: &Q) -> bool
    where
        K: HashedKey<Q>,
        requires has { HasSet K.shape K.knows this.bytes.now this.pos }
        ensures answers { SaysElement H.Default H.Hasher Q.hash_input K.key_of K.order K.shape this.entry query.now result }
    {
        ArchivedHashMap::contains_key(as_map(this), query)
    }
}
