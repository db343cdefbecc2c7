//! Cursors over the entries of an archived B-tree map between two bounds that lend one value at a time.
ghost use Rattle.std.specs.Prelude.{◌≡◌};
ghost use Rattle.archive_shape_layout.specs.Shape.Shape.{tree};
ghost use Rattle.archive_forms_values.specs.Parts.{HasValue, both};
ghost use Rattle.archive_btree_maps.specs.Calls.CursorsOpened.{MayCompareRangeLent, RangeOpens, RangeOpensBy, RangeOpensOver};
ghost use Rattle.archive_btree_maps.specs.Lookups.{ComparesAt};
ghost use Rattle.archive_btree_maps.specs.Refs.{ref_at};

use crate::map::ArchivedBTreeMap;
use crate::walking::{RangeSeal, walk_between};
use archive_shape::{ArchivedKey, Portable, Ref, Seal};
use std::cmp::Ordering;
use std::ops::RangeBounds;

impl<K, V: Portable, const E: usize> ArchivedBTreeMap<K, V, E> {
    /// Returns a cursor over the entries whose keys lie between two bounds. If the lower bound is above the upper one,
    /// there are none.
    pub fn range_seal<'a, Q, R: RangeBounds<Q>>(
        this: Seal<'a, ArchivedBTreeMap<K, V, E>>,
        bounds: R,
    ) -> RangeSeal<'a, K, V>
    where
        K: ArchivedKey<Q>,
        requires has { HasValue (tree E K.shape V.shape) (both K.knows V.knows)
            this.bytes.now this.pos }
        ensures same_reference { result.bytes.ghost_name ≡ this.entry.bytes.ghost_name }
        ensures bytes { result.bytes.now ≡ this.entry.bytes.now }
        ensures within { RangeOpens E K.Portable V.Portable this.entry result }
        ensures between { RangeOpensOver E K.Portable V.Portable K.key_of K.order R.RangeBounds this.entry bounds result }
    {
        let Seal { bytes, pos, .. } = this;
        let shared: &[u8] = bytes;
        let compare = |query: &Q, at: usize| -> Ordering
            requires { K.is_key shared.now at }
            ensures { ComparesAt K.key_of K.order shared.entry.now query.now at result }
        { K::compare(&Ref::new(shared, at), query).reverse() };
        let walk = walk_between::<K, V, _, _, E>(
            shared,
            pos,
            bounds.start_bound(),
            bounds.end_bound(),
            &compare,
        );
        RangeSeal::new(bytes, walk)
    }
}

impl<K: Portable, V: Portable, const E: usize> ArchivedBTreeMap<K, V, E> {
    /// Returns a cursor over the entries whose keys lie between two bounds by the caller's comparison. `compare`
    /// returns how the query of a bound compares with a key: if it does not agree with the order of the keys, the
    /// cursor returns some entries that lie side by side.
    pub fn range_seal_with<'a, Q, R: RangeBounds<Q>, F: Fn(&Q, Ref<'_, K>) -> Ordering>(
        this: Seal<'a, ArchivedBTreeMap<K, V, E>>,
        bounds: R,
        compare: &F,
    ) -> RangeSeal<'a, K, V>
        requires has { HasValue (tree E K.shape V.shape) (both K.knows V.knows)
            this.bytes.now this.pos }
        requires callable { MayCompareRangeLent E K.Portable V.shape F.pre compare.now R.RangeBounds this bounds }
        ensures same_reference { result.bytes.ghost_name ≡ this.entry.bytes.ghost_name }
        ensures bytes { result.bytes.now ≡ this.entry.bytes.now }
        ensures within { RangeOpens E K.Portable V.Portable this.entry result }
        ensures between { RangeOpensBy E K.Portable V.Portable F.post compare.now R.RangeBounds this.entry bounds result }
    {
        let Seal { bytes, pos, .. } = this;
        let shared: &[u8] = bytes;
        let compare_at = |query: &Q, at: usize| -> Ordering
            requires { F.pre compare.now query (ref_at shared at) }
            ensures { F.post compare.entry.now query.entry (ref_at shared.entry at) result }
        { compare(query, Ref::new(shared, at)) };
        let walk = walk_between::<K, V, _, _, E>(
            shared,
            pos,
            bounds.start_bound(),
            bounds.end_bound(),
            &compare_at,
        );
        RangeSeal::new(bytes, walk)
    }
}
