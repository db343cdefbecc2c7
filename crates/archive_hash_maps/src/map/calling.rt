//! Look-ups in archived hash maps by a comparison that the caller passes.
ghost use Rattle.std.specs.Prelude.{IfSome};
ghost use Rattle.archive_forms_values.specs.Parts.{HasValue};
ghost use Rattle.archive_hash_maps.specs.Maps.{IsThere, HasMap};
ghost use Rattle.archive_hash_maps.specs.Calls.Keys.{GetsValueBy, GetsEntryBy};
ghost use Rattle.archive_hash_maps.specs.Calls.Tables.{MayCall};

use crate::map::ArchivedHashMap;
use crate::walking::{search_with, value_position};
use archive_shape::{Portable, Ref};
use std::hash::{Hash, Hasher};

impl<K: Portable, V: Portable, H: Hasher + Default + Drop> ArchivedHashMap<K, V, H> {
    /// Returns the entry that has the query's hash and whose key the caller's comparison accepts. `accepts` returns
    /// whether a key is the query.
    pub fn get_key_value_with<'a, Q: Hash, F: Fn(&Q, Ref<'_, K>) -> bool>(
        this: Ref<'a, ArchivedHashMap<K, V, H>>,
        query: &Q,
        accepts: &F,
    ) -> Option<(Ref<'a, K>, Ref<'a, V>)>
        requires has { HasMap K.shape V.shape K.knows V.knows this }
        requires callable { MayCall K.shape K.knows this.bytes (F.pre accepts.now query) }
        ensures there { IfSome result (IsThere K.shape V.shape K.knows V.knows) }
        ensures answers { GetsEntryBy H.Default H.Hasher Q.hash_input (F.post accepts.now) K.shape V.shape this.entry query.entry result }
    {
        match search_with::<Q, K, V, H, F>(this.bytes, this.pos, query, accepts) {
            Some(at) => Some((
                Ref::new(this.bytes, at),
                Ref::new(this.bytes, value_position::<K, V>(this.bytes, at)),
            )),
            None => None,
        }
    }

    /// Returns the value of the entry that [`ArchivedHashMap::get_key_value_with`] returns.
    pub fn get_with<'a, Q: Hash, F: Fn(&Q, Ref<'_, K>) -> bool>(
        this: Ref<'a, ArchivedHashMap<K, V, H>>,
        query: &Q,
        accepts: &F,
    ) -> Option<Ref<'a, V>>
        requires has { HasMap K.shape V.shape K.knows V.knows this }
        requires callable { MayCall K.shape K.knows this.bytes (F.pre accepts.now query) }
        ensures there { IfSome result (λ r. HasValue V.shape V.knows r.bytes.now r.pos) }
        ensures answers { GetsValueBy H.Default H.Hasher Q.hash_input (F.post accepts.now) K.shape V.shape this.entry query.entry result }
    {
        match ArchivedHashMap::get_key_value_with(this, query, accepts) {
            Some((_, value)) => Some(value),
            None => None,
        }
    }
}
