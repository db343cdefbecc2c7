//! Visits of one entry of an archived index map that lend the value.
ghost use Rattle.archive_hash_maps.specs.Calls.Entries.{MayVisitEntries};
ghost use Rattle.archive_hash_maps.specs.Calls.Tables.{MayCallWhereLent};
ghost use Rattle.archive_index.specs.Maps.{HasMapAt};
ghost use Rattle.archive_index.specs.Calls.Search.{IsNumberIn};
ghost use Rattle.archive_index.specs.Calls.Visits.{VisitsFoundAt, VisitsFull, VisitsEntry, VisitsFullBy, VisitsEntryBy};

use crate::map::ArchivedIndexMap;
use crate::map::search::{entry_at, search_key, search_with};
use archive_forms_values::visit_entry;
use archive_hash::{HashedKey, value_position};
use archive_shape::{OwnSeal, Portable, Ref, Seal};
use std::hash::{Hash, Hasher};

/// Calls `visit` with the key and the value of the entry whose number is found, if one is. Returns the number, and the result
/// of the call.
fn visit_found<K: Portable, V: Portable, R, F: FnMut(Ref<'_, K>, &mut OwnSeal<'_, V>) -> R>(
    bytes: &mut [u8],
    pos: usize,
    found: Option<usize>,
    visit: &mut F,
) -> Option<(usize, R)>
    requires has { HasMapAt K.shape V.shape K.knows V.knows bytes.old pos }
    requires within { IsNumberIn K.shape V.shape bytes.old pos found }
    requires callable { MayVisitEntries K.Portable V.Portable bytes.old (F.pre visit.old) }
    ensures { VisitsFoundAt K.Portable V.Portable F.step bytes.old bytes.new visit.old visit.new pos found result }
{
    match found {
        Some(index) => {
            let at = entry_at::<K, V>(bytes, pos, index);
            let value = value_position::<K, V>(bytes, at);
            Some((index, visit_entry::<K, V, _, _>(bytes, at, value, visit)))
        }
        None => None,
    }
}

impl<K, V: Portable, H: Hasher + Default + Drop> ArchivedIndexMap<K, V, H> {
    /// Calls `visit` with a key and its value, which has only its own bytes, if the map has the key. Returns the number of
    /// the key's entry, and the result of the call. The key is read from the bytes before the value.
    pub fn visit_full_seal<Q: Hash, R, F: FnMut(Ref<'_, K>, &mut OwnSeal<'_, V>) -> R>(
        this: Seal<'_, ArchivedIndexMap<K, V, H>>,
        query: &Q,
        visit: &mut F,
    ) -> Option<(usize, R)>
    where
        K: HashedKey<Q>,
        requires has { HasMapAt K.shape V.shape K.knows V.knows this.bytes.now this.pos }
        requires callable { MayVisitEntries K.Portable V.Portable this.bytes.now (F.pre visit.old) }
        ensures { VisitsFull K.HashedKey H.Default H.Hasher Q.Hash query.now K.Portable V.Portable F.step
            this.entry this.exit.0.now visit.old visit.new result }
    {
        let Seal { bytes, pos, .. } = this;
        let found = search_key::<Q, K, V, H>(bytes, pos, query);
        visit_found::<K, V, _, _>(bytes, pos, found, visit)
    }

    /// Calls `visit` as [`ArchivedIndexMap::visit_full_seal`] does, and returns the result of the call.
    pub fn visit_key_value_seal<Q: Hash, R, F: FnMut(Ref<'_, K>, &mut OwnSeal<'_, V>) -> R>(
        this: Seal<'_, ArchivedIndexMap<K, V, H>>,
        query: &Q,
        visit: &mut F,
    ) -> Option<R>
    where
        K: HashedKey<Q>,
        requires has { HasMapAt K.shape V.shape K.knows V.knows this.bytes.now this.pos }
        requires callable { MayVisitEntries K.Portable V.Portable this.bytes.now (F.pre visit.old) }
        ensures { VisitsEntry K.HashedKey H.Default H.Hasher Q.Hash query.now K.Portable V.Portable F.step
            this.entry this.exit.0.now visit.old visit.new result }
    {
        let Seal { bytes, pos, .. } = this;
        let found = search_key::<Q, K, V, H>(bytes, pos, query);
        let Some((_, answer)) = visit_found::<K, V, _, _>(bytes, pos, found, visit) else {
            return None;
        };
        Some(answer)
    }
}

impl<K: Portable, V: Portable, H: Hasher + Default + Drop> ArchivedIndexMap<K, V, H> {
    /// Calls `visit` as [`ArchivedIndexMap::visit_full_seal`] does, with the entry that has the query's hash and whose key
    /// the caller's comparison accepts.
    pub fn visit_full_seal_with<
        Q: Hash,
        R,
        F: Fn(&Q, Ref<'_, K>) -> bool,
        G: FnMut(Ref<'_, K>, &mut OwnSeal<'_, V>) -> R,
    >(
        this: Seal<'_, ArchivedIndexMap<K, V, H>>,
        query: &Q,
        accepts: &F,
        visit: &mut G,
    ) -> Option<(usize, R)>
        requires has { HasMapAt K.shape V.shape K.knows V.knows this.bytes.now this.pos }
        requires callable { MayCallWhereLent K.shape K.knows this.bytes.now (F.pre accepts.now query) }
        requires visitable { MayVisitEntries K.Portable V.Portable this.bytes.now (G.pre visit.old) }
        ensures { VisitsFullBy H.Default H.Hasher Q.Hash (F.post accepts.now) query.entry K.Portable
            V.Portable G.step this.entry this.exit.0.now visit.old visit.new result }
    {
        let Seal { bytes, pos, .. } = this;
        let found = search_with::<Q, K, V, H, F>(bytes, pos, query, accepts);
        visit_found::<K, V, _, _>(bytes, pos, found, visit)
    }

    /// Calls `visit` as [`ArchivedIndexMap::visit_full_seal_with`] does, and returns the result of the call.
    pub fn visit_key_value_seal_with<
        Q: Hash,
        R,
        F: Fn(&Q, Ref<'_, K>) -> bool,
        G: FnMut(Ref<'_, K>, &mut OwnSeal<'_, V>) -> R,
    >(this: Seal<'_, ArchivedIndexMap<K, V, H>>, query: &Q, accepts: &F, visit: &mut G) -> Option<R>
        requires has { HasMapAt K.shape V.shape K.knows V.knows this.bytes.now this.pos }
        requires callable { MayCallWhereLent K.shape K.knows this.bytes.now (F.pre accepts.now query) }
        requires visitable { MayVisitEntries K.Portable V.Portable this.bytes.now (G.pre visit.old) }
        ensures { VisitsEntryBy H.Default H.Hasher Q.Hash (F.post accepts.now) query.entry K.Portable
            V.Portable G.step this.entry this.exit.0.now visit.old visit.new result }
    {
        let Seal { bytes, pos, .. } = this;
        let found = search_with::<Q, K, V, H, F>(bytes, pos, query, accepts);
        let Some((_, answer)) = visit_found::<K, V, _, _>(bytes, pos, found, visit) else {
            return None;
        };
        Some(answer)
    }
}
