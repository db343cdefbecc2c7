//! Look-ups of keys in archived index sets.
ghost use Rattle.std.specs.Prelude.{IfSome};
ghost use Rattle.archive_forms_values.specs.Parts.{HasValue};
ghost use Rattle.archive_index.specs.Sets.{HasSet};
ghost use Rattle.archive_index.specs.Calls.Entries.{GetsElementAt};
ghost use Rattle.archive_index.specs.Calls.Keys.{GetsFullElement, GetsElement, GetsElementIndex, SaysElement};

use crate::map::ArchivedIndexMap;
use crate::set::ArchivedIndexSet;
use crate::set::set::as_map;
use archive_hash::HashedKey;
use archive_shape::{Portable, Ref};
use std::hash::{Hash, Hasher};

impl<K, H: Hasher + Default + Drop> ArchivedIndexSet<K, H> {
    /// Returns the number of the archived key that is equal to the query, and the key, if the set has one.
    pub fn get_full<'a, Q: Hash>(
        this: Ref<'a, ArchivedIndexSet<K, H>>,
        query: &Q,
    ) -> Option<(usize, Ref<'a, K>)>
    where
        K: HashedKey<Q>,
        requires has { HasSet K.shape K.knows this }
        ensures there { IfSome result (λ r. HasValue K.shape K.knows r.1.bytes.now r.1.pos) }
        ensures answers { GetsFullElement K.HashedKey H.Default H.Hasher Q.Hash query.now this.entry result }
    {
        match ArchivedIndexMap::get_full(as_map(this), query) {
            Some((index, key, _)) => Some((index, key)),
            None => None,
        }
    }

    /// Returns the archived key that is equal to the query, if the set has one.
    pub fn get<'a, Q: Hash>(this: Ref<'a, ArchivedIndexSet<K, H>>, query: &Q) -> Option<Ref<'a, K>>
    where
        K: HashedKey<Q>,
        requires has { HasSet K.shape K.knows this }
        ensures there { IfSome result (λ r. HasValue K.shape K.knows r.bytes.now r.pos) }
        ensures answers { GetsElement K.HashedKey H.Default H.Hasher Q.Hash query.now this.entry result }
    {
        match ArchivedIndexMap::get_key_value(as_map(this), query) {
            Some((key, _)) => Some(key),
            None => None,
        }
    }

    /// Returns the number of the archived key that is equal to the query, if the set has one.
    pub fn get_index_of<Q: Hash>(this: Ref<'_, ArchivedIndexSet<K, H>>, query: &Q) -> Option<usize>
    where
        K: HashedKey<Q>,
        requires has { HasSet K.shape K.knows this }
        ensures answers { GetsElementIndex K.HashedKey H.Default H.Hasher Q.Hash query.now this.entry result }
    {
        ArchivedIndexMap::get_index_of(as_map(this), query)
    }

    /// Returns whether the set has a key.
    pub fn contains<Q: Hash>(this: Ref<'_, ArchivedIndexSet<K, H>>, query: &Q) -> bool
    where
        K: HashedKey<Q>,
        requires has { HasSet K.shape K.knows this }
        ensures answers { SaysElement K.HashedKey H.Default H.Hasher Q.Hash query.now this.entry result }
    {
        ArchivedIndexMap::contains_key(as_map(this), query)
    }
}

impl<K: Portable, H> ArchivedIndexSet<K, H> {
    /// Returns the key with a number, if there is one.
    pub fn get_index<'a>(this: Ref<'a, ArchivedIndexSet<K, H>>, index: usize) -> Option<Ref<'a, K>>
        requires { HasSet K.shape K.knows this }
        ensures there { IfSome result (λ r. HasValue K.shape K.knows r.bytes.now r.pos) }
        ensures answers { GetsElementAt K.shape this.entry index result }
    {
        match ArchivedIndexMap::get_index(as_map(this), index) {
            Some((key, _)) => Some(key),
            None => None,
        }
    }
}
