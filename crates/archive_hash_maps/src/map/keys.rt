//! Look-ups of keys in archived hash maps.
ghost use Rattle.std.specs.Prelude.{IfSome, Some};
ghost use Rattle.archive_forms_values.specs.Parts.{HasValue};
ghost use Rattle.archive_hash_maps.specs.Maps.{IsThere, HasMap};
ghost use Rattle.archive_hash_maps.specs.Calls.Keys.{GetsValue, GetsEntry, SaysKey, HasQuery};

use crate::map::ArchivedHashMap;
use crate::walking::{HashedKey, search_key, value_position};
use archive_shape::{Portable, Ref};
use std::hash::{Hash, Hasher};

impl<K, V: Portable, H: Hasher + Default + Drop> ArchivedHashMap<K, V, H> {
    /// Returns a key and its value, if the map has the key.
    pub fn get_key_value<'a, Q: Hash>(
        this: Ref<'a, ArchivedHashMap<K, V, H>>,
        query: &Q,
    ) -> Option<(Ref<'a, K>, Ref<'a, V>)>
    where
        K: HashedKey<Q>,
        requires has { HasMap K.shape V.shape K.knows V.knows this }
        ensures there { IfSome result (IsThere K.shape V.shape K.knows V.knows) }
        ensures answers { GetsEntry H.Default H.Hasher Q.hash_input K.key_of K.order K.shape V.shape this.entry query.now result }
    {
        match search_key::<Q, K, V, H>(this.bytes, this.pos, query) {
            Some(at) => Some((
                Ref::new(this.bytes, at),
                Ref::new(this.bytes, value_position::<K, V>(this.bytes, at)),
            )),
            None => None,
        }
    }

    /// Returns the value of a key, if the map has the key.
    pub fn get<'a, Q: Hash>(
        this: Ref<'a, ArchivedHashMap<K, V, H>>,
        query: &Q,
    ) -> Option<Ref<'a, V>>
    where
        K: HashedKey<Q>,
        requires has { HasMap K.shape V.shape K.knows V.knows this }
        ensures there { IfSome result (λ r. HasValue V.shape V.knows r.bytes.now r.pos) }
        ensures answers { GetsValue H.Default H.Hasher Q.hash_input K.key_of K.order K.shape V.shape this.entry query.now result }
    {
        match search_key::<Q, K, V, H>(this.bytes, this.pos, query) {
            Some(at) => Some(Ref::new(this.bytes, value_position::<K, V>(this.bytes, at))),
            None => None,
        }
    }

    /// Returns whether the map has a key.
    pub fn contains_key<Q: Hash>(this: Ref<'_, ArchivedHashMap<K, V, H>>, query: &Q) -> bool
    where
        K: HashedKey<Q>,
        requires has { HasMap K.shape V.shape K.knows V.knows this }
        ensures answers { SaysKey H.Default H.Hasher Q.hash_input K.key_of K.order K.shape V.shape this.entry query.now result }
    {
        search_key::<Q, K, V, H>(this.bytes, this.pos, query).is_some()
    }
    /// Returns the value of a key that the map has.
    pub fn index<'a, Q: Hash>(this: Ref<'a, ArchivedHashMap<K, V, H>>, query: &Q) -> Ref<'a, V>
    where
        K: HashedKey<Q>,
        requires has { HasMap K.shape V.shape K.knows V.knows this }
        requires present { HasQuery H.Default H.Hasher Q.hash_input K.key_of K.order K.shape V.shape this query.now }
        ensures there { HasValue V.shape V.knows result.bytes.now result.pos }
        ensures answers { GetsValue H.Default H.Hasher Q.hash_input K.key_of K.order K.shape V.shape this.entry query.now (Some result) }
    {
        ArchivedHashMap::get(this, query).unwrap()
    }
}
