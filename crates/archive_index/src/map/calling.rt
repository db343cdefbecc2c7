//! Look-ups in archived index maps by a comparison that the caller passes.
ghost use Rattle.std.specs.Prelude.{IfSome};
ghost use Rattle.archive_forms_values.specs.Parts.{HasValue};
ghost use Rattle.archive_hash_maps.specs.Maps.{IsThere};
ghost use Rattle.archive_index.specs.Maps.{HasMap};
ghost use Rattle.archive_hash_maps.specs.Calls.Tables.{MayCall};
ghost use Rattle.archive_index.specs.Calls.Keys.{GetsFullBy, GetsEntryBy, GetsValueBy, GetsIndexBy};

use crate::map::ArchivedIndexMap;
use crate::map::search::{entry_at, search_with};
use archive_hash::value_position;
use archive_shape::{Portable, Ref};
use std::hash::{Hash, Hasher};

impl<K: Portable, V: Portable, H: Hasher + Default + Drop> ArchivedIndexMap<K, V, H> {
    /// Returns the number, the key and the value of the entry that has the query's hash and whose key the caller's
    /// comparison accepts. `accepts` returns whether a key is the query.
    pub fn get_full_with<'a, Q: Hash, F: Fn(&Q, Ref<'_, K>) -> bool>(
        this: Ref<'a, ArchivedIndexMap<K, V, H>>,
        query: &Q,
        accepts: &F,
    ) -> Option<(usize, Ref<'a, K>, Ref<'a, V>)>
        requires has { HasMap K.shape V.shape K.knows V.knows this }
        requires callable { MayCall K.shape K.knows this.bytes (F.pre accepts.now query) }
        ensures there { IfSome result (λ r. IsThere K.shape V.shape K.knows V.knows (r.1, r.2)) }
        ensures answers { GetsFullBy K.shape V.shape H.Default H.Hasher Q.Hash (F.post accepts.now) query.entry this.entry result }
    {
        match search_with::<Q, K, V, H, F>(this.bytes, this.pos, query, accepts) {
            Some(index) => {
                let at = entry_at::<K, V>(this.bytes, this.pos, index);
                let value = value_position::<K, V>(this.bytes, at);
                Some((index, Ref::new(this.bytes, at), Ref::new(this.bytes, value)))
            }
            None => None,
        }
    }

    /// Returns the key and the value of the entry that [`ArchivedIndexMap::get_full_with`] returns.
    pub fn get_key_value_with<'a, Q: Hash, F: Fn(&Q, Ref<'_, K>) -> bool>(
        this: Ref<'a, ArchivedIndexMap<K, V, H>>,
        query: &Q,
        accepts: &F,
    ) -> Option<(Ref<'a, K>, Ref<'a, V>)>
        requires has { HasMap K.shape V.shape K.knows V.knows this }
        requires callable { MayCall K.shape K.knows this.bytes (F.pre accepts.now query) }
        ensures there { IfSome result (IsThere K.shape V.shape K.knows V.knows) }
        ensures answers { GetsEntryBy K.shape V.shape H.Default H.Hasher Q.Hash (F.post accepts.now) query.entry this.entry result }
    {
        match ArchivedIndexMap::get_full_with(this, query, accepts) {
            Some((_, key, value)) => Some((key, value)),
            None => None,
        }
    }

    /// Returns the value of the entry that [`ArchivedIndexMap::get_full_with`] returns.
    pub fn get_with<'a, Q: Hash, F: Fn(&Q, Ref<'_, K>) -> bool>(
        this: Ref<'a, ArchivedIndexMap<K, V, H>>,
        query: &Q,
        accepts: &F,
    ) -> Option<Ref<'a, V>>
        requires has { HasMap K.shape V.shape K.knows V.knows this }
        requires callable { MayCall K.shape K.knows this.bytes (F.pre accepts.now query) }
        ensures there { IfSome result (λ r. HasValue V.shape V.knows r.bytes.now r.pos) }
        ensures answers { GetsValueBy K.shape V.shape H.Default H.Hasher Q.Hash (F.post accepts.now) query.entry this.entry result }
    {
        match ArchivedIndexMap::get_full_with(this, query, accepts) {
            Some((_, _, value)) => Some(value),
            None => None,
        }
    }

    /// Returns the number of the entry that [`ArchivedIndexMap::get_full_with`] returns.
    pub fn get_index_of_with<Q: Hash, F: Fn(&Q, Ref<'_, K>) -> bool>(
        this: Ref<'_, ArchivedIndexMap<K, V, H>>,
        query: &Q,
        accepts: &F,
    ) -> Option<usize>
        requires has { HasMap K.shape V.shape K.knows V.knows this }
        requires callable { MayCall K.shape K.knows this.bytes (F.pre accepts.now query) }
        ensures answers { GetsIndexBy K.shape V.shape H.Default H.Hasher Q.Hash (F.post accepts.now) query.entry this.entry result }
    {
        search_with::<Q, K, V, H, F>(this.bytes, this.pos, query, accepts)
    }
}
