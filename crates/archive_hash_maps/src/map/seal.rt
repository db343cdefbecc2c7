//! Items of archived hash tables, and values of archived hash maps, that may be edited.
ghost use Rattle.std.specs.Prelude.{◌≡◌, ◌+◌, length, IfSome};
ghost use Rattle.archive_shape_layout.specs.Shape.Shape.{table};
ghost use Rattle.archive_forms_values.specs.Parts.{HasValue};
ghost use Rattle.archive_hash_maps.specs.Places.{item_at};
ghost use Rattle.archive_hash_maps.specs.Calls.Entries.{HasMapAt};
ghost use Rattle.archive_hash_maps.specs.Calls.Seals.{HasBufferOf, GetsItemSeal, GetsValueSeal, GetsEntrySeal, GetsValueSealBy, GetsEntrySealBy};
ghost use Rattle.archive_hash_maps.specs.Calls.Tables.{MayCallWhereLent};

use crate::map::{ArchivedHashMap, ArchivedHashTable};
use crate::walking::{HashedKey, search_key, search_table, search_with, value_position};
use archive_forms_values::lend_entry;
use archive_hash_probing::Group;
use archive_shape::{OwnSeal, Portable, Ref, Seal};
use std::hash::{Hash, Hasher};

impl<T: Portable> ArchivedHashTable<T> {
    /// Returns the item that has the hash `hash` and that `accepts` accepts. The contract does not state the buffer
    /// after the loan.
    pub fn get_seal_with<'a, F: Fn(Ref<'_, T>) -> bool>(
        this: Seal<'a, ArchivedHashTable<T>>,
        hash: u64,
        accepts: &F,
    ) -> Option<Seal<'a, T>>
        requires has { HasValue (table T.shape) T.knows this.bytes.now this.pos }
        requires callable { MayCallWhereLent T.shape T.knows this.bytes.now (F.pre accepts.now) }
        ensures whole { IfSome result (HasBufferOf this.entry) }
        ensures there { IfSome result (λ r. HasValue T.shape T.knows r.bytes.now r.pos) }
        ensures answers { GetsItemSeal T.shape (F.post accepts.now) this.entry hash result }
    {
        let Seal { bytes, pos, .. } = this;
        let shared: &[u8] = bytes;
        let accepts_at = |at: usize| -> bool
            requires { F.pre accepts.now (item_at shared at) }
            ensures { F.post accepts.entry.now (item_at shared.entry at) result }
        { accepts(Ref::new(shared, at)) };
        match search_table::<T, Group, _>(shared, pos, hash, &accepts_at).0 {
            Some(at) => Some(Seal::new(bytes, at)),
            None => None,
        }
    }
}

impl<K, V: Portable, H: Hasher + Default + Drop> ArchivedHashMap<K, V, H> {
    /// Returns the value of a key, if the map has the key. The contract does not state the buffer after the loan.
    pub fn get_seal<'a, Q: Hash>(
        this: Seal<'a, ArchivedHashMap<K, V, H>>,
        query: &Q,
    ) -> Option<Seal<'a, V>>
    where
        K: HashedKey<Q>,
        requires has { HasMapAt K.shape V.shape K.knows V.knows this.bytes.now this.pos }
        ensures whole { IfSome result (HasBufferOf this.entry) }
        ensures there { IfSome result (λ r. HasValue V.shape V.knows r.bytes.now r.pos) }
        ensures answers { GetsValueSeal H.Default H.Hasher Q.hash_input K.key_of K.order K.shape V.shape this.entry query.now result }
    {
        let Seal { bytes, pos, .. } = this;
        match search_key::<Q, K, V, H>(bytes, pos, query) {
            Some(at) => {
                let value = value_position::<K, V>(bytes, at);
                Some(Seal::new(bytes, value))
            }
            None => None,
        }
    }
    /// Returns a key, and its value with only the value's own bytes, if the map has the key. The key is read from the
    /// bytes before the value's own bytes, where all that the key points to lies. The contract does not state the
    /// buffer after the loan.
    pub fn get_key_value_seal<'a, Q: Hash>(
        this: Seal<'a, ArchivedHashMap<K, V, H>>,
        query: &Q,
    ) -> Option<(Ref<'a, K>, OwnSeal<'a, V>)>
    where
        K: HashedKey<Q>,
        requires has { HasMapAt K.shape V.shape K.knows V.knows this.bytes.now this.pos }
        ensures there { IfSome result (λ r. HasValue K.shape K.knows r.0.bytes.now r.0.pos) }
        ensures own { IfSome result (λ r. length r.1.own.now ≡ V.SIZE) }
        ensures answers { GetsEntrySeal H.Default H.Hasher Q.hash_input K.key_of K.order K.Portable V.Portable this.entry query.now result }
    {
        let Seal { bytes, pos, .. } = this;
        match search_key::<Q, K, V, H>(bytes, pos, query) {
            Some(at) => {
                let value = value_position::<K, V>(bytes, at);
                Some(lend_entry::<K, V>(bytes, at, value))
            }
            None => None,
        }
    }
}

impl<K: Portable, V: Portable, H: Hasher + Default + Drop> ArchivedHashMap<K, V, H> {
    /// Returns the value of the entry that has the query's hash and whose key the caller's comparison accepts. The
    /// contract does not state the buffer after the loan.
    pub fn get_seal_with<'a, Q: Hash, F: Fn(&Q, Ref<'_, K>) -> bool>(
        this: Seal<'a, ArchivedHashMap<K, V, H>>,
        query: &Q,
        accepts: &F,
    ) -> Option<Seal<'a, V>>
        requires has { HasMapAt K.shape V.shape K.knows V.knows this.bytes.now this.pos }
        requires callable { MayCallWhereLent K.shape K.knows this.bytes.now (F.pre accepts.now query) }
        ensures whole { IfSome result (HasBufferOf this.entry) }
        ensures there { IfSome result (λ r. HasValue V.shape V.knows r.bytes.now r.pos) }
        ensures answers { GetsValueSealBy H.Default H.Hasher Q.hash_input (F.post accepts.now) K.shape V.shape this.entry query.entry result }
    {
        let Seal { bytes, pos, .. } = this;
        match search_with::<Q, K, V, H, F>(bytes, pos, query, accepts) {
            Some(at) => {
                let value = value_position::<K, V>(bytes, at);
                Some(Seal::new(bytes, value))
            }
            None => None,
        }
    }

    /// Returns the key of the entry that has the query's hash and whose key the caller's comparison accepts, and its
    /// value with only the value's own bytes. The key is read from the bytes before the value's own bytes, where all
    /// that the key points to lies. The contract does not state the buffer after the loan.
    pub fn get_key_value_seal_with<'a, Q: Hash, F: Fn(&Q, Ref<'_, K>) -> bool>(
        this: Seal<'a, ArchivedHashMap<K, V, H>>,
        query: &Q,
        accepts: &F,
    ) -> Option<(Ref<'a, K>, OwnSeal<'a, V>)>
        requires has { HasMapAt K.shape V.shape K.knows V.knows this.bytes.now this.pos }
        requires callable { MayCallWhereLent K.shape K.knows this.bytes.now (F.pre accepts.now query) }
        ensures there { IfSome result (λ r. HasValue K.shape K.knows r.0.bytes.now r.0.pos) }
        ensures own { IfSome result (λ r. length r.1.own.now ≡ V.SIZE) }
        ensures answers { GetsEntrySealBy H.Default H.Hasher Q.hash_input (F.post accepts.now) K.Portable V.Portable this.entry query.entry result }
    {
        let Seal { bytes, pos, .. } = this;
        match search_with::<Q, K, V, H, F>(bytes, pos, query, accepts) {
            Some(at) => {
                let value = value_position::<K, V>(bytes, at);
                Some(lend_entry::<K, V>(bytes, at, value))
            }
            None => None,
        }
    }
}
