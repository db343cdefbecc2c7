//! Equality of a map and a map of std.
ghost use Rattle.std.specs.Prelude.{All};
ghost use Rattle.archive_btree_maps.specs.Maps.{HasMap};
ghost use Rattle.archive_btree_maps.specs.Refs.{IsThere};
ghost use Rattle.archive_btree_maps.specs.StdMaps.{MayCallValue};
ghost use Rattle.archive_btree_maps.specs.Calls.StdMaps.{ComparesMap, ComparesPair, ComparesPairs, EqualsStdMap, EqualsStdPairs, MayCompareValues, TellsSame};

use crate::map::ArchivedBTreeMap;
use crate::walking::Iter;
use archive_shape::{ArchivedKey, Portable, Ref};
use std::alloc::Allocator;
use std::collections::BTreeMap;

/// Checks whether a key is the same as that of a pair of a map of std, and `equal` returns `true` of the two values.
fn same_pair<Q, W, K: ArchivedKey<Q>, V: Portable, F: Fn(Ref<'_, V>, &W) -> bool>(
    this: &(Ref<'_, K>, Ref<'_, V>),
    other: (&Q, &W),
    equal: &F,
) -> bool
    requires there { IsThere K.shape V.shape K.knows V.knows this.now }
    requires callable { F.pre equal.now this.now.1 other.1 }
    ensures { ComparesPair K.key_of K.order F.post equal.now this.now other.entry result }
{
    K::same(&this.0, other.0) && equal(this.1, other.1)
}

/// Checks whether entries and the pairs of a map of std are equal in number, and the same one by one.
fn same_entries<
    Q: Ord,
    W,
    K: ArchivedKey<Q>,
    V: Portable,
    F: Fn(Ref<'_, V>, &W) -> bool,
    A: Allocator,
>(these: Iter<'_, K, V>, others: &BTreeMap<Q, W, A>, equal: &F) -> bool
    requires there { All (IsThere K.shape V.shape K.knows V.knows) these }
    requires callable { All (λ e. MayCallValue (F.pre equal.now) others.now.entries e.1) these }
    ensures { ComparesPairs K.key_of K.order F.post equal.now these.entry others.now.entries result }
{
    if these.len() != others.len() {
        return false;
    }
    for (this, other) in these.zip(others.iter()) {
        if !same_pair(&this, other, equal) {
            return false;
        }
    }
    true
}

/// Checks the same where the values are keys.
fn same_keyed<Q: Ord, W, K: ArchivedKey<Q>, V: ArchivedKey<W>, A: Allocator>(
    these: Iter<'_, K, V>,
    others: &BTreeMap<Q, W, A>,
) -> bool
    requires { All (IsThere K.shape V.shape K.knows V.knows) these }
    ensures { EqualsStdPairs K.key_of K.order V.key_of V.order these.entry others.now.entries result }
{
    let equal = |value: Ref<'_, V>, other: &W| -> bool
        requires { V.is_key value.bytes.now value.pos }
        ensures { TellsSame V.key_of V.order value.entry other.now result }
    { V::same(&value, other) };
    same_entries(these, others, &equal)
}

/// Checks whether a map and a map of std are equal: whether they have the same number of pairs, and one by one the keys
/// are the same, and the values by the caller's comparison.
pub fn eq_btree_map_with<
    Q: Ord,
    W,
    K: ArchivedKey<Q>,
    V: Portable,
    F: Fn(Ref<'_, V>, &W) -> bool,
    A: Allocator,
    const E: usize,
>(this: &Ref<'_, ArchivedBTreeMap<K, V, E>>, other: &BTreeMap<Q, W, A>, equal: &F) -> bool
    requires has { HasMap E K.shape V.shape K.knows V.knows this.now }
    requires callable { MayCompareValues E K.shape V.Portable F.pre equal.now this.now other.now.entries }
    ensures { ComparesMap K.key_of K.order F.post equal.now E K.shape V.shape this.now other.now.entries result }
{
    same_entries(ArchivedBTreeMap::iter(*this), other, equal)
}

/// Checks whether a map and a map of std are equal: whether they have the same number of pairs, and one by one the keys
/// are the same, and the values. Values that are no keys are compared by [`eq_btree_map_with`].
pub fn eq_btree_map<Q: Ord, W, K: ArchivedKey<Q>, V: ArchivedKey<W>, A: Allocator, const E: usize>(
    this: &Ref<'_, ArchivedBTreeMap<K, V, E>>,
    other: &BTreeMap<Q, W, A>,
) -> bool
    requires { HasMap E K.shape V.shape K.knows V.knows this.now }
    ensures { EqualsStdMap K.key_of K.order V.key_of V.order E K.shape V.shape this.now other.now.entries result }
{
    same_keyed(ArchivedBTreeMap::iter(*this), other)
}
