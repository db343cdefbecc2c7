//! Equality of sets: they have the same number of keys, and the keys are equal one by one.
ghost use Rattle.std.specs.Cmp.{on_equiv};
ghost use Rattle.std.specs.Cmp.Lexicographic.{lists_equiv};
ghost use Rattle.archive_btree_maps.specs.Sets.{HasSet};
ghost use Rattle.archive_btree_maps.specs.Keys.{keys_of};
ghost use Rattle.archive_btree_maps.specs.SetComparing.{set_equality};
ghost use Rattle.archive_btree_maps.specs.Calls.StdMaps.{EqualsStdSet};

use crate::map::eq_map;
use crate::set::ArchivedBTreeSet;
use crate::set::set::as_map;
use archive_forms_comparing::ArchivedEq;
use archive_shape::{ArchivedKey, Ref};
use std::alloc::Allocator;
use std::collections::BTreeSet;

impl<K: ArchivedEq, const E: usize> ArchivedEq for ArchivedBTreeSet<K, E> {
    ghost equal = { set_equality K.equal };

    ghost is_equivalence = { on_equiv keys_of (lists_equiv K.is_equivalence) };

    fn eq(this: &Ref<'_, ArchivedBTreeSet<K, E>>, other: &Ref<'_, ArchivedBTreeSet<K, E>>) -> bool {
        eq_map(&as_map(*this), &as_map(*other))
    }
}

/// Checks whether an archived set and a set of std have the same number of keys, and the same keys one by one.
pub fn eq_btree_set<Q: Ord, K: ArchivedKey<Q>, A: Allocator, const E: usize>(
    this: &Ref<'_, ArchivedBTreeSet<K, E>>,
    other: &BTreeSet<Q, A>,
) -> bool
    requires has { HasSet E K.shape K.knows this.now.bytes.now this.now.pos }
    ensures { EqualsStdSet E K.shape K.key_of K.order this.now other.now.keys result }
{
    let keys = ArchivedBTreeSet::iter(*this);
    if keys.len() != other.len() {
        return false;
    }
    for (key, query) in keys.zip(other.iter()) {
        if !K::same(&key, query) {
            return false;
        }
    }
    true
}
