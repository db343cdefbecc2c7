//! Visits of an archived B-tree map that lend the values.
ghost use Rattle.archive_shape_layout.specs.Shape.Shape.{tree};
ghost use Rattle.archive_forms_values.specs.Parts.{HasValue, both};
ghost use Rattle.archive_btree_maps.specs.Calls.Lending.{AnswersVisit, AnswersVisitBy, FindsVisit, FindsVisitBy, MayCompareLent, MayVisitEach};
ghost use Rattle.archive_btree_maps.specs.Calls.Visits.{MayVisitLent, VisitsLent};
ghost use Rattle.archive_btree_maps.specs.Refs.{ref_at};

use crate::map::ArchivedBTreeMap;
use crate::walking::{entry_walk_at, pass_entry, search_key, search_map};
use archive_forms_values::visit_entry;
use archive_shape::{ArchivedKey, OwnSeal, Portable, Ref, Seal};
use std::cmp::Ordering;
use std::ops::ControlFlow;

impl<K: Portable, V: Portable, const E: usize> ArchivedBTreeMap<K, V, E> {
    /// Calls `visit` with each key and its value with only the value's own bytes, in the order of the keys, up to the
    /// first entry that it breaks at. Returns the value that it breaks with, or `None` if it breaks at no entry. A key
    /// is read from the bytes before the value's own, as they are at the time of the call.
    pub fn visit_seal<B, F: FnMut(Ref<'_, K>, &mut OwnSeal<'_, V>) -> ControlFlow<B>>(
        this: Seal<'_, ArchivedBTreeMap<K, V, E>>,
        visit: &mut F,
    ) -> Option<B>
        requires has { HasValue (tree E K.shape V.shape) (both K.knows V.knows)
            this.bytes.now this.pos }
        requires callable { MayVisitLent E K.Portable V.Portable F.pre this }
        ensures { VisitsLent E K.Portable V.Portable F.step this.entry visit.old result visit.new this.exit.0.now }
    {
        let Seal { bytes, pos, .. } = this;
        let mut walk = entry_walk_at::<K, V, E>(bytes, pos);
        while let Some(entry) = pass_entry::<K, V>(&mut walk, bytes) {
            match visit_entry::<K, V, _, _>(bytes, entry.key, entry.value, visit) {
                ControlFlow::Continue(()) => {}
                ControlFlow::Break(answer) => return Some(answer),
            }
        }
        None
    }
    /// Calls `visit` as [`ArchivedBTreeMap::visit_key_value_seal`] does, with the entry that the caller's comparison
    /// finds. `compare` returns how the query compares with a key: if it does not agree with the order of the keys, an
    /// entry may not be found.
    pub fn visit_key_value_seal_with<
        Q,
        R,
        F: Fn(&Q, Ref<'_, K>) -> Ordering,
        G: FnMut(Ref<'_, K>, &mut OwnSeal<'_, V>) -> R,
    >(this: Seal<'_, ArchivedBTreeMap<K, V, E>>, query: &Q, compare: &F, visit: &mut G) -> Option<R>
        requires has { HasValue (tree E K.shape V.shape) (both K.knows V.knows)
            this.bytes.now this.pos }
        requires callable { MayCompareLent E K.Portable V.shape F.pre compare.now this query }
        requires visitable { MayVisitEach E K.Portable V.Portable G.pre this visit.old }
        ensures found { FindsVisitBy E K.shape V.Portable F.post compare.now this.entry query.entry G.step visit.old result visit.new this.exit.0.now }
        ensures answers { AnswersVisitBy E K.shape V.Portable F.post compare.now this.entry query.entry G.step visit.old result visit.new this.exit.0.now }
    {
        let Seal { bytes, pos, .. } = this;
        let shared: &[u8] = bytes;
        let compare_at = |at: usize| -> Ordering
            requires { F.pre compare.now query (ref_at shared at) }
            ensures { F.post compare.entry.now query.entry (ref_at shared.entry at) result }
        { compare(query, Ref::new(shared, at)) };
        let Some(entry) = search_map::<K, V, _, E>(shared, pos, &compare_at).0 else {
            return None;
        };
        Some(visit_entry::<K, V, _, _>(bytes, entry.key, entry.value, visit))
    }
}

impl<K, V: Portable, const E: usize> ArchivedBTreeMap<K, V, E> {
    /// Calls `visit` with a key and its value, which has only its own bytes, if the map has the key. Returns the result
    /// of the call. The key is read from the bytes before the value.
    pub fn visit_key_value_seal<Q, R, F: FnMut(Ref<'_, K>, &mut OwnSeal<'_, V>) -> R>(
        this: Seal<'_, ArchivedBTreeMap<K, V, E>>,
        query: &Q,
        visit: &mut F,
    ) -> Option<R>
    where
        K: ArchivedKey<Q>,
        requires has { HasValue (tree E K.shape V.shape) (both K.knows V.knows)
            this.bytes.now this.pos }
        requires callable { MayVisitEach E K.Portable V.Portable F.pre this visit.old }
        ensures found { FindsVisit E K.shape V.Portable K.key_of K.order this.entry query.now F.step visit.old result visit.new this.exit.0.now }
        ensures answers { AnswersVisit E K.shape V.Portable K.key_of K.order this.entry query.now F.step visit.old result visit.new this.exit.0.now }
    {
        let Seal { bytes, pos, .. } = this;
        let Some(entry) = search_key::<Q, K, V, E>(bytes, pos, query).0 else {
            return None;
        };
        Some(visit_entry::<K, V, _, _>(bytes, entry.key, entry.value, visit))
    }
}
