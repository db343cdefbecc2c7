//! Visits of one item of an archived hash table, or one entry of an archived hash map, that lend the item or the value.
ghost use Rattle.archive_shape_layout.specs.Shape.Shape.{table};
ghost use Rattle.archive_forms_values.specs.Parts.{HasValue};
ghost use Rattle.archive_hash_maps.specs.Places.{item_at};
ghost use Rattle.archive_hash_maps.specs.Calls.Entries.{HasMapAt, MayVisitEntries};
ghost use Rattle.archive_hash_maps.specs.Calls.Seals.{MayVisitItems, VisitsItemSeal, VisitsEntrySeal, VisitsEntrySealBy};
ghost use Rattle.archive_hash_maps.specs.Calls.Tables.{MayCallWhereLent};

use crate::map::{ArchivedHashMap, ArchivedHashTable};
use crate::walking::{HashedKey, search_key, search_table, search_with, value_position};
use archive_forms_values::{visit_entry, visit_own};
use archive_hash_probing::Group;
use archive_shape::{OwnSeal, Portable, Ref, Seal};
use std::hash::{Hash, Hasher};

impl<T: Portable> ArchivedHashTable<T> {
    /// Calls `visit` with the item that has the hash `hash` and that `accepts` accepts, if there is one. The item has
    /// only its own bytes. Returns the result of the call.
    pub fn visit_seal_with<R, F: Fn(Ref<'_, T>) -> bool, G: FnMut(&mut OwnSeal<'_, T>) -> R>(
        this: Seal<'_, ArchivedHashTable<T>>,
        hash: u64,
        accepts: &F,
        visit: &mut G,
    ) -> Option<R>
        requires has { HasValue (table T.shape) T.knows this.bytes.now this.pos }
        requires callable { MayCallWhereLent T.shape T.knows this.bytes.now (F.pre accepts.now) }
        requires visitable { MayVisitItems T.Portable this.bytes.now (G.pre visit.old) }
        ensures { VisitsItemSeal T.Portable (F.post accepts.now) G.step this.entry this.exit.0.now hash visit.old visit.new result }
    {
        let Seal { bytes, pos, .. } = this;
        let shared: &[u8] = bytes;
        let accepts_at = |at: usize| -> bool
            requires { F.pre accepts.now (item_at shared at) }
            ensures { F.post accepts.entry.now (item_at shared.entry at) result }
        { accepts(Ref::new(shared, at)) };
        let Some(at) = search_table::<T, Group, _>(shared, pos, hash, &accepts_at).0 else {
            return None;
        };
        Some(visit_own::<T, _, _>(bytes, at, visit))
    }
}

impl<K, V: Portable, H: Hasher + Default + Drop> ArchivedHashMap<K, V, H> {
    /// Calls `visit` with a key and its value, which has only its own bytes, if the map has the key. Returns the result
    /// of the call. The key is read from the bytes before the value.
    pub fn visit_key_value_seal<Q: Hash, R, F: FnMut(Ref<'_, K>, &mut OwnSeal<'_, V>) -> R>(
        this: Seal<'_, ArchivedHashMap<K, V, H>>,
        query: &Q,
        visit: &mut F,
    ) -> Option<R>
    where
        K: HashedKey<Q>,
        requires has { HasMapAt K.shape V.shape K.knows V.knows this.bytes.now this.pos }
        requires callable { MayVisitEntries K.Portable V.Portable this.bytes.now (F.pre visit.old) }
        ensures { VisitsEntrySeal H.Default H.Hasher Q.hash_input K.key_of K.order K.Portable V.Portable this.entry F.step this.exit.0.now query.now visit.old visit.new result }
    {
        let Seal { bytes, pos, .. } = this;
        let Some(at) = search_key::<Q, K, V, H>(bytes, pos, query) else {
            return None;
        };
        let value = value_position::<K, V>(bytes, at);
        Some(visit_entry::<K, V, _, _>(bytes, at, value, visit))
    }
}

impl<K: Portable, V: Portable, H: Hasher + Default + Drop> ArchivedHashMap<K, V, H> {
    /// Calls `visit` as [`ArchivedHashMap::visit_key_value_seal`] does, with the entry that has the query's hash and
    /// whose key the caller's comparison accepts.
    pub fn visit_key_value_seal_with<
        Q: Hash,
        R,
        F: Fn(&Q, Ref<'_, K>) -> bool,
        G: FnMut(Ref<'_, K>, &mut OwnSeal<'_, V>) -> R,
    >(this: Seal<'_, ArchivedHashMap<K, V, H>>, query: &Q, accepts: &F, visit: &mut G) -> Option<R>
        requires has { HasMapAt K.shape V.shape K.knows V.knows this.bytes.now this.pos }
        requires callable { MayCallWhereLent K.shape K.knows this.bytes.now (F.pre accepts.now query) }
        requires visitable { MayVisitEntries K.Portable V.Portable this.bytes.now (G.pre visit.old) }
        ensures { VisitsEntrySealBy H.Default H.Hasher Q.hash_input (F.post accepts.now) K.Portable V.Portable this.entry G.step this.exit.0.now query.entry visit.old visit.new result }
    {
        let Seal { bytes, pos, .. } = this;
        let Some(at) = search_with::<Q, K, V, H, F>(bytes, pos, query, accepts) else {
            return None;
        };
        let value = value_position::<K, V>(bytes, at);
        Some(visit_entry::<K, V, _, _>(bytes, at, value, visit))
    }
}
