//! Look-ups of keys in archived index maps.
ghost use Rattle.std.specs.Prelude.{IfSome};
ghost use Rattle.archive_forms_values.specs.Parts.{HasValue};
ghost use Rattle.archive_hash_maps.specs.Maps.{IsThere};
ghost use Rattle.archive_index.specs.Maps.{HasMap};
ghost use Rattle.archive_index.specs.Calls.Keys.{GetsFull, GetsEntry, GetsValue, GetsIndex, SaysKey};

use crate::map::ArchivedIndexMap;
use crate::map::search::{entry_at, search_key};
use archive_hash::{HashedKey, value_position};
use archive_shape::{Portable, Ref};
use std::hash::{Hash, Hasher};

impl<K, V: Portable, H: Hasher + Default + Drop> ArchivedIndexMap<K, V, H> {
    /// Returns the number of a key's entry, the key and its value, if the map has the key. Of a map that was written it is the
    /// first entry with the key, by the law `written_map_answers`.
    pub fn get_full<'a, Q: Hash>(
        this: Ref<'a, ArchivedIndexMap<K, V, H>>,
        query: &Q,
    ) -> Option<(usize, Ref<'a, K>, Ref<'a, V>)>
    where
        K: HashedKey<Q>,
        requires has { HasMap K.shape V.shape K.knows V.knows this }
        ensures there { IfSome result (λ r. IsThere K.shape V.shape K.knows V.knows (r.1, r.2)) }
        ensures answers { GetsFull K.HashedKey V.shape H.Default H.Hasher Q.Hash query.now this.entry result }
    {
        match search_key::<Q, K, V, H>(this.bytes, this.pos, query) {
            Some(index) => {
                let at = entry_at::<K, V>(this.bytes, this.pos, index);
                let value = value_position::<K, V>(this.bytes, at);
                Some((index, Ref::new(this.bytes, at), Ref::new(this.bytes, value)))
            }
            None => None,
        }
    }

    /// Returns a key and its value, if the map has the key.
    pub fn get_key_value<'a, Q: Hash>(
        this: Ref<'a, ArchivedIndexMap<K, V, H>>,
        query: &Q,
    ) -> Option<(Ref<'a, K>, Ref<'a, V>)>
    where
        K: HashedKey<Q>,
        requires has { HasMap K.shape V.shape K.knows V.knows this }
        ensures there { IfSome result (IsThere K.shape V.shape K.knows V.knows) }
        ensures answers { GetsEntry K.HashedKey V.shape H.Default H.Hasher Q.Hash query.now this.entry result }
    {
        match ArchivedIndexMap::get_full(this, query) {
            Some((_, key, value)) => Some((key, value)),
            None => None,
        }
    }

    /// Returns the value of a key, if the map has the key.
    pub fn get<'a, Q: Hash>(
        this: Ref<'a, ArchivedIndexMap<K, V, H>>,
        query: &Q,
    ) -> Option<Ref<'a, V>>
    where
        K: HashedKey<Q>,
        requires has { HasMap K.shape V.shape K.knows V.knows this }
        ensures there { IfSome result (λ r. HasValue V.shape V.knows r.bytes.now r.pos) }
        ensures answers { GetsValue K.HashedKey V.shape H.Default H.Hasher Q.Hash query.now this.entry result }
    {
        match ArchivedIndexMap::get_full(this, query) {
            Some((_, _, value)) => Some(value),
            None => None,
        }
    }

    /// Returns the number of a key's entry, if the map has the key: that of [`ArchivedIndexMap::get_full`].
    pub fn get_index_of<Q: Hash>(
        this: Ref<'_, ArchivedIndexMap<K, V, H>>,
        query: &Q,
    ) -> Option<usize>
    where
        K: HashedKey<Q>,
        requires has { HasMap K.shape V.shape K.knows V.knows this }
        ensures answers { GetsIndex K.HashedKey V.shape H.Default H.Hasher Q.Hash query.now this.entry result }
    {
        search_key::<Q, K, V, H>(this.bytes, this.pos, query)
    }

    /// Returns whether the map has a key.
    pub fn contains_key<Q: Hash>(this: Ref<'_, ArchivedIndexMap<K, V, H>>, query: &Q) -> bool
    where
        K: HashedKey<Q>,
        requires has { HasMap K.shape V.shape K.knows V.knows this }
        ensures answers { SaysKey K.HashedKey V.shape H.Default H.Hasher Q.Hash query.now this.entry result }
    {
        search_key::<Q, K, V, H>(this.bytes, this.pos, query).is_some()
    }
}
