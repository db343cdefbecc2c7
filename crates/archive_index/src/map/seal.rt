//! Values of archived index maps that may be edited.
ghost use Rattle.std.specs.Prelude.{◌≡◌, length, IfSome};
ghost use Rattle.archive_forms_values.specs.Parts.{HasValue};
ghost use Rattle.archive_index.specs.Maps.{HasMapAt};
ghost use Rattle.archive_hash_maps.specs.Calls.Seals.{HasBufferOf};
ghost use Rattle.archive_hash_maps.specs.Calls.Tables.{MayCallWhereLent};
ghost use Rattle.archive_index.specs.Calls.Lending.{LendsFull, LendsEntry, SealsValue, LendsFullBy, LendsEntryBy, SealsValueBy};

use crate::map::ArchivedIndexMap;
use crate::map::search::{entry_at, search_key, search_with};
use archive_forms_values::lend_entry;
use archive_hash::{HashedKey, value_position};
use archive_shape::{OwnSeal, Portable, Ref, Seal};
use std::hash::{Hash, Hasher};

impl<K, V: Portable, H: Hasher + Default + Drop> ArchivedIndexMap<K, V, H> {
    /// Returns the number of a key's entry, the key, and its value with only the value's own bytes, if the map has the
    /// key. The key is read from the bytes before the value's own bytes, where all that the key points to lies. The
    /// contract does not state the buffer after the call; that of [`ArchivedIndexMap::visit_full_seal`] does.
    pub fn get_full_seal<'a, Q: Hash>(
        this: Seal<'a, ArchivedIndexMap<K, V, H>>,
        query: &Q,
    ) -> Option<(usize, Ref<'a, K>, OwnSeal<'a, V>)>
    where
        K: HashedKey<Q>,
        requires has { HasMapAt K.shape V.shape K.knows V.knows this.bytes.now this.pos }
        ensures there { IfSome result (λ r. HasValue K.shape K.knows r.1.bytes.now r.1.pos) }
        ensures own { IfSome result (λ r. length r.2.own.now ≡ V.SIZE) }
        ensures answers { LendsFull K.HashedKey V.Portable H.Default H.Hasher Q.Hash query.now this.entry result }
    {
        let Seal { bytes, pos, .. } = this;
        match search_key::<Q, K, V, H>(bytes, pos, query) {
            Some(index) => {
                let at = entry_at::<K, V>(bytes, pos, index);
                let value = value_position::<K, V>(bytes, at);
                let (key, own) = lend_entry::<K, V>(bytes, at, value);
                Some((index, key, own))
            }
            None => None,
        }
    }

    /// Returns a key, and its value with only the value's own bytes, if the map has the key. The contract does not state
    /// the buffer after the call; that of [`ArchivedIndexMap::visit_key_value_seal`] does.
    pub fn get_key_value_seal<'a, Q: Hash>(
        this: Seal<'a, ArchivedIndexMap<K, V, H>>,
        query: &Q,
    ) -> Option<(Ref<'a, K>, OwnSeal<'a, V>)>
    where
        K: HashedKey<Q>,
        requires has { HasMapAt K.shape V.shape K.knows V.knows this.bytes.now this.pos }
        ensures there { IfSome result (λ r. HasValue K.shape K.knows r.0.bytes.now r.0.pos) }
        ensures own { IfSome result (λ r. length r.1.own.now ≡ V.SIZE) }
        ensures answers { LendsEntry K.HashedKey V.Portable H.Default H.Hasher Q.Hash query.now this.entry result }
    {
        let Seal { bytes, pos, .. } = this;
        match search_key::<Q, K, V, H>(bytes, pos, query) {
            Some(index) => {
                let at = entry_at::<K, V>(bytes, pos, index);
                let value = value_position::<K, V>(bytes, at);
                Some(lend_entry::<K, V>(bytes, at, value))
            }
            None => None,
        }
    }

    /// Returns the value of a key, if the map has the key. The contract does not state the buffer after the call; that of
    /// [`ArchivedIndexMap::visit_key_value_seal`] does.
    pub fn get_seal<'a, Q: Hash>(
        this: Seal<'a, ArchivedIndexMap<K, V, H>>,
        query: &Q,
    ) -> Option<Seal<'a, V>>
    where
        K: HashedKey<Q>,
        requires has { HasMapAt K.shape V.shape K.knows V.knows this.bytes.now this.pos }
        ensures whole { IfSome result (HasBufferOf this.entry) }
        ensures there { IfSome result (λ r. HasValue V.shape V.knows r.bytes.now r.pos) }
        ensures answers { SealsValue K.HashedKey V.shape H.Default H.Hasher Q.Hash query.now this.entry result }
    {
        let Seal { bytes, pos, .. } = this;
        match search_key::<Q, K, V, H>(bytes, pos, query) {
            Some(index) => {
                let at = entry_at::<K, V>(bytes, pos, index);
                let value = value_position::<K, V>(bytes, at);
                Some(Seal::new(bytes, value))
            }
            None => None,
        }
    }
}

impl<K: Portable, V: Portable, H: Hasher + Default + Drop> ArchivedIndexMap<K, V, H> {
    /// Returns what [`ArchivedIndexMap::get_full_seal`] returns, of the entry that has the query's hash and whose key the
    /// caller's comparison accepts.
    pub fn get_full_seal_with<'a, Q: Hash, F: Fn(&Q, Ref<'_, K>) -> bool>(
        this: Seal<'a, ArchivedIndexMap<K, V, H>>,
        query: &Q,
        accepts: &F,
    ) -> Option<(usize, Ref<'a, K>, OwnSeal<'a, V>)>
        requires has { HasMapAt K.shape V.shape K.knows V.knows this.bytes.now this.pos }
        requires callable { MayCallWhereLent K.shape K.knows this.bytes.now (F.pre accepts.now query) }
        ensures there { IfSome result (λ r. HasValue K.shape K.knows r.1.bytes.now r.1.pos) }
        ensures own { IfSome result (λ r. length r.2.own.now ≡ V.SIZE) }
        ensures answers { LendsFullBy K.shape V.Portable H.Default H.Hasher Q.Hash (F.post accepts.now) query.entry this.entry result }
    {
        let Seal { bytes, pos, .. } = this;
        match search_with::<Q, K, V, H, F>(bytes, pos, query, accepts) {
            Some(index) => {
                let at = entry_at::<K, V>(bytes, pos, index);
                let value = value_position::<K, V>(bytes, at);
                let (key, own) = lend_entry::<K, V>(bytes, at, value);
                Some((index, key, own))
            }
            None => None,
        }
    }

    /// Returns the key and the value of the entry that [`ArchivedIndexMap::get_full_seal_with`] returns.
    pub fn get_key_value_seal_with<'a, Q: Hash, F: Fn(&Q, Ref<'_, K>) -> bool>(
        this: Seal<'a, ArchivedIndexMap<K, V, H>>,
        query: &Q,
        accepts: &F,
    ) -> Option<(Ref<'a, K>, OwnSeal<'a, V>)>
        requires has { HasMapAt K.shape V.shape K.knows V.knows this.bytes.now this.pos }
        requires callable { MayCallWhereLent K.shape K.knows this.bytes.now (F.pre accepts.now query) }
        ensures there { IfSome result (λ r. HasValue K.shape K.knows r.0.bytes.now r.0.pos) }
        ensures own { IfSome result (λ r. length r.1.own.now ≡ V.SIZE) }
        ensures answers { LendsEntryBy K.shape V.Portable H.Default H.Hasher Q.Hash (F.post accepts.now) query.entry this.entry result }
    {
        let Seal { bytes, pos, .. } = this;
        match search_with::<Q, K, V, H, F>(bytes, pos, query, accepts) {
            Some(index) => {
                let at = entry_at::<K, V>(bytes, pos, index);
                let value = value_position::<K, V>(bytes, at);
                Some(lend_entry::<K, V>(bytes, at, value))
            }
            None => None,
        }
    }

    /// Returns the value of the entry that [`ArchivedIndexMap::get_full_seal_with`] returns. The contract does not state
    /// the buffer after the call; that of [`ArchivedIndexMap::visit_key_value_seal_with`] does.
    pub fn get_seal_with<'a, Q: Hash, F: Fn(&Q, Ref<'_, K>) -> bool>(
        this: Seal<'a, ArchivedIndexMap<K, V, H>>,
        query: &Q,
        accepts: &F,
    ) -> Option<Seal<'a, V>>
        requires has { HasMapAt K.shape V.shape K.knows V.knows this.bytes.now this.pos }
        requires callable { MayCallWhereLent K.shape K.knows this.bytes.now (F.pre accepts.now query) }
        ensures whole { IfSome result (HasBufferOf this.entry) }
        ensures there { IfSome result (λ r. HasValue V.shape V.knows r.bytes.now r.pos) }
        ensures answers { SealsValueBy K.shape V.Portable H.Default H.Hasher Q.Hash (F.post accepts.now) query.entry this.entry result }
    {
        let Seal { bytes, pos, .. } = this;
        match search_with::<Q, K, V, H, F>(bytes, pos, query, accepts) {
            Some(index) => {
                let at = entry_at::<K, V>(bytes, pos, index);
                let value = value_position::<K, V>(bytes, at);
                Some(Seal::new(bytes, value))
            }
            None => None,
        }
    }
}
