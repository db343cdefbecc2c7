//! The entries of an archived B-tree map between two bounds, by the position of the map.
ghost use Rattle.std.specs.Prelude.{◌≡◌, None, IfSome, map};
ghost use Rattle.std.specs.Iterator.{YieldsFirst, UpTo, item_count};
ghost use Rattle.std.specs.Iterator.SizeHint.{IsWithinCount};
ghost use Rattle.archive_shape_layout.specs.Shape.Shape.{tree};
ghost use Rattle.archive_forms_values.specs.Parts.{HasValue, both};
ghost use Rattle.archive_btree_maps.specs.Bounds.{OfQuery, TellsBefore, TellsBehind};
ghost use Rattle.archive_btree_maps.specs.Refs.{entry_at};
ghost use Rattle.archive_btree_maps.specs.Calls.Ranges.{AreInBounds, IsRunAt, MayCompareBounds, WalksBounds, WalksRun};

use crate::nodes::{EntryWalk, NodeLayout};
use crate::walking::root::root_at;
use archive_shape::{Portable, Ref};
use std::cmp::Ordering;
use std::iter::FusedIterator;
use std::marker::{Model, PhantomData};
use std::ops::Bound;

/// An iterator over the entries of a map between two bounds in the order of their keys. Its model is the list of the
/// entries that are left.
#[derive(Drop)]
pub struct Range<'a, K, V> {
    bytes: &'a [u8],
    walk: crate::nodes::Range<'a>,
    of: PhantomData<(K, V)>,
}

impl<'a, K, V> Model for Range<'a, K, V> {
    ghost use Rattle.std.specs.Prelude.{List, map};
    ghost use Rattle.archive_shape.specs.declared.references.refs.Ref.{Ref};

    ghost Value = { List (Ref K × Ref V) };

    ghost use Rattle.archive_btree_maps.specs.Refs.{entry_at};

    ghost view = { λ it. map (entry_at it.bytes) it.walk };
}

impl<'a, K, V> Range<'a, K, V> {
    /// Returns an iterator over the entries at the places that a walk has left in `bytes`.
    pub fn new(bytes: &'a [u8], walk: crate::nodes::Range<'a>) -> Self
        ensures { result ≡ map (entry_at bytes.entry) walk.entry }
    {
        Range {
            bytes,
            walk,
            of: PhantomData,
        }
    }
}

/// The number of entries is not known before the end, so that `size_hint` has no upper limit.
impl<'a, K, V> Iterator for Range<'a, K, V> {
    type Item = (Ref<'a, K>, Ref<'a, V>);

    ghost next_gives = { YieldsFirst (λ xs. xs) };

    ghost remaining = { item_count (λ xs. xs) };

    fn next(&mut self) -> Option<(Ref<'a, K>, Ref<'a, V>)> {
        let entry = self.walk.next()?;
        Some((
            Ref::new(self.bytes, entry.key),
            Ref::new(self.bytes, entry.value),
        ))
    }

    fn size_hint(&self) -> (usize, Option<usize>)
        ensures lower { IsWithinCount result.0 (item_count (λ xs. xs) self.now) }
        ensures upper { IfSome result.1 (UpTo (item_count (λ xs. xs) self.now)) }
        ensures exact { result ≡ (0, None) }
    {
        (0, None)
    }
}

impl<'a, K, V> FusedIterator for Range<'a, K, V> {}

/// Checks whether a key lies before a range, by how the query of the lower bound compares with it.
fn is_before<Q, C: Fn(&Q, usize) -> Ordering>(start: Bound<&Q>, at: usize, compare: &C) -> bool
    requires { OfQuery (λ query. C.pre compare.now query at) start }
    ensures { TellsBefore C.post compare.now start.entry at result }
{
    match start {
        Bound::Included(query) => compare(query, at).is_gt(),
        Bound::Excluded(query) => compare(query, at).is_ge(),
        Bound::Unbounded => false,
    }
}

/// Checks whether a key lies after a range, by how the query of the upper bound compares with it.
fn is_behind<Q, C: Fn(&Q, usize) -> Ordering>(end: Bound<&Q>, at: usize, compare: &C) -> bool
    requires { OfQuery (λ query. C.pre compare.now query at) end }
    ensures { TellsBehind C.post compare.now end.entry at result }
{
    match end {
        Bound::Included(query) => compare(query, at).is_lt(),
        Bound::Excluded(query) => compare(query, at).is_le(),
        Bound::Unbounded => false,
    }
}

/// Returns a walk, which holds no bytes, over the entries between two bounds of the map at `pos`. `compare` returns how
/// the query of a bound compares with the key at a position.
pub fn walk_between<K: Portable, V: Portable, Q, C: Fn(&Q, usize) -> Ordering, const E: usize>(
    bytes: &[u8],
    pos: usize,
    start: Bound<&Q>,
    end: Bound<&Q>,
    compare: &C,
) -> EntryWalk
    requires has { HasValue (tree E K.shape V.shape) (both K.knows V.knows) bytes.now pos }
    requires callable { MayCompareBounds E K.shape V.shape bytes.now pos C.pre compare.now start end }
    ensures within { WalksRun E K.shape V.shape bytes.now pos result }
    ensures between { WalksBounds E K.shape V.shape bytes.now pos C.post compare.now start.entry end.entry result }
{
    let Some(root) = root_at::<K, V, E>(bytes, pos) else {
        return EntryWalk::empty(NodeLayout::of::<K, V, E>());
    };
    let precedes = |at: usize| -> bool
        requires { OfQuery (λ query. C.pre compare.now query at) start }
        ensures { TellsBefore C.post compare.entry.now start.entry at result }
    { is_before(start, at, compare) };
    let follows = |at: usize| -> bool
        requires { OfQuery (λ query. C.pre compare.now query at) end }
        ensures { TellsBehind C.post compare.entry.now end.entry at result }
    { is_behind(end, at, compare) };
    EntryWalk::between(bytes, root.pos, root.layout, &precedes, &follows)
}

/// Returns a walk over the entries between two bounds of the map at `pos`. `compare` returns how the query of a bound
/// compares with the key at a position.
pub fn range_at<'a, K: Portable, V: Portable, Q, C: Fn(&Q, usize) -> Ordering, const E: usize>(
    bytes: &'a [u8],
    pos: usize,
    start: Bound<&Q>,
    end: Bound<&Q>,
    compare: &C,
) -> crate::nodes::Range<'a>
    requires has { HasValue (tree E K.shape V.shape) (both K.knows V.knows) bytes.now pos }
    requires callable { MayCompareBounds E K.shape V.shape bytes.now pos C.pre compare.now start end }
    ensures within { IsRunAt E K.shape V.shape bytes.entry.now pos result }
    ensures between { AreInBounds E K.shape V.shape bytes.entry.now pos C.post compare.now start.entry end.entry result }
{
    walk_between::<K, V, _, _, E>(bytes, pos, start, end, compare).over(bytes)
}
