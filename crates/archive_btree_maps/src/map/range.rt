//! The entries of an archived B-tree map between two bounds.
ghost use Rattle.std.specs.Prelude.{All};
ghost use Rattle.archive_btree_maps.specs.Maps.{HasMap};
ghost use Rattle.archive_btree_maps.specs.Refs.{IsThere, ref_at};
ghost use Rattle.archive_btree_maps.specs.Calls.Ranges.{MayCompareRange, RangesBy, RangesOver, RangesOverRun};
ghost use Rattle.archive_btree_maps.specs.Lookups.{ComparesAt};

use crate::map::ArchivedBTreeMap;
use crate::walking::{Range, range_at};
use archive_shape::{ArchivedKey, Portable, Ref};
use std::cmp::Ordering;
use std::ops::RangeBounds;

impl<K, V: Portable, const E: usize> ArchivedBTreeMap<K, V, E> {
    /// Returns an iterator over the entries whose keys lie between two bounds. If the lower bound is above the upper
    /// one, there are none.
    pub fn range<'a, Q, R: RangeBounds<Q>>(
        this: Ref<'a, ArchivedBTreeMap<K, V, E>>,
        bounds: R,
    ) -> Range<'a, K, V>
    where
        K: ArchivedKey<Q>,
        requires has { HasMap E K.shape V.shape K.knows V.knows this }
        ensures there { All (IsThere K.shape V.shape K.knows V.knows) result }
        ensures within { RangesOverRun E K.shape V.shape this.entry result }
        ensures between { RangesOver E K.shape V.shape K.key_of K.order R.RangeBounds this.entry bounds result }
    {
        let bytes = this.bytes;
        let compare = |query: &Q, at: usize| -> Ordering
            requires { K.is_key bytes.now at }
            ensures { ComparesAt K.key_of K.order bytes.entry.now query.now at result }
        { K::compare(&Ref::new(bytes, at), query).reverse() };
        Range::new(
            bytes,
            range_at::<K, V, _, _, E>(
                bytes,
                this.pos,
                bounds.start_bound(),
                bounds.end_bound(),
                &compare,
            ),
        )
    }
}

impl<K: Portable, V: Portable, const E: usize> ArchivedBTreeMap<K, V, E> {
    /// Returns an iterator over the entries whose keys lie between two bounds by the caller's comparison. `compare`
    /// returns how the query of a bound compares with a key: if it does not agree with the order of the keys, the
    /// iterator returns some entries that lie side by side.
    pub fn range_with<'a, Q, R: RangeBounds<Q>, F: Fn(&Q, Ref<'_, K>) -> Ordering>(
        this: Ref<'a, ArchivedBTreeMap<K, V, E>>,
        bounds: R,
        compare: &F,
    ) -> Range<'a, K, V>
        requires has { HasMap E K.shape V.shape K.knows V.knows this }
        requires callable { MayCompareRange E K.Portable V.shape F.pre compare.now R.RangeBounds this bounds }
        ensures there { All (IsThere K.shape V.shape K.knows V.knows) result }
        ensures within { RangesOverRun E K.shape V.shape this.entry result }
        ensures between { RangesBy E K.shape V.shape F.post compare.now R.RangeBounds this.entry bounds result }
    {
        let bytes = this.bytes;
        let compare_at = |query: &Q, at: usize| -> Ordering
            requires { F.pre compare.now query (ref_at bytes at) }
            ensures { F.post compare.entry.now query.entry (ref_at bytes.entry at) result }
        { compare(query, Ref::new(bytes, at)) };
        Range::new(
            bytes,
            range_at::<K, V, _, _, E>(
                bytes,
                this.pos,
                bounds.start_bound(),
                bounds.end_bound(),
                &compare_at,
            ),
        )
    }
}
