//! Tests of archived sets.

use crate::archives::root_of;
use crate::writing::set_of;
use archive_btree::SetIter;
use archive_btree_maps::{ArchivedBTreeSet, BTreeSetResolver, eq_btree_set};
use archive_forms_comparing::{ArchivedEq, ArchivedHash};
use archive_forms_values::native_of;
use archive_shape::{ArchivedU32, Place, Ref};
use std::alloc::Global;
use std::hash::{DefaultHasher, Hasher};
use std::ops::ControlFlow;

/// A set of numbers with at most five keys in a node. A leaf has seven words: its kind, five keys and its length; an
/// inner node has six pointers in place of the length.
type Numbers = ArchivedBTreeSet<ArchivedU32, 5>;

/// The bytes of the set without keys.
pub(crate) const NONE: &[u8; 8] = b"\x01\0\0\0\0\0\0\0";

/// The bytes of the set of 10, 20, 40 and 80: a leaf, and the set, whose root is 28 bytes before it.
pub(crate) const FOUR: &[u8; 36] =
    b"\0\0\0\0\x0a\0\0\0\x14\0\0\0(\0\0\0P\0\0\0\0\0\0\0\x04\0\0\0\xe4\xff\xff\xff\x04\0\0\0";

/// The bytes of the set of 1 to 6: a leaf of the first key, and an inner node of the others.
pub(crate) const SIX: &[u8; 84] =
    b"\0\0\0\0\x01\0\0\0\0\0\0\0\0\0\0\0\0\0\0\0\0\0\0\0\x01\0\0\0\x01\0\0\0\x02\0\0\0\x03\0\0\0\x04\0\0\0\x05\0\0\0\x06\0\0\0\xcc\xff\xff\xff\x01\0\0\0\x01\0\0\0\x01\0\0\0\x01\0\0\0\x01\0\0\0\xd0\xff\xff\xff\x06\0\0\0";

/// Checks whether a set has so many keys, and a key as `has` says.
fn finds(alloc: Global, bytes: &[u8], key: u32, len: usize, has: bool) -> bool {
    let Some(root) = root_of::<Numbers>(alloc, bytes) else {
        return false;
    };
    let found = match ArchivedBTreeSet::get(root, &key) {
        Some(found) => has && native_of(found) == key,
        None => !has,
    };
    found
        && ArchivedBTreeSet::len(root) == len
        && ArchivedBTreeSet::is_empty(root) == (len == 0)
        && ArchivedBTreeSet::contains_key(root, &key) == has
}

/// Returns the number of keys of a set and the position of the first of them, or `None` if it has none.
fn keys_from_the_first(alloc: Global, bytes: &[u8]) -> Option<(usize, usize)> {
    let mut keys: SetIter<'_, ArchivedU32> = ArchivedBTreeSet::iter(root_of::<Numbers>(
        alloc, bytes,
    )?);
    let len = keys.len();
    Some((len, keys.next()?.pos()))
}

/// Sets by their bytes, keys, the number of keys, and whether the sets have the keys.
const LOOK_UPS: [(&[u8], u32, usize, bool); 11] = [
    (NONE, 10, 0, false),
    (FOUR, 10, 4, true),
    (FOUR, 20, 4, true),
    (FOUR, 40, 4, true),
    (FOUR, 80, 4, true),
    (FOUR, 9, 4, false),
    (FOUR, 30, 4, false),
    (FOUR, 81, 4, false),
    (SIX, 1, 6, true),
    (SIX, 2, 6, true),
    (SIX, 6, 6, true),
];

#[test]
fn keys_are_found(rt: HostRuntime) {
    for &(bytes, key, len, has) in &LOOK_UPS {
        assert!(rt; finds(rt.alloc(), bytes, key, len, has));
    }
}

/// Checks where a visit breaks that ends at the key at a position, which is 0 if it does not break, and the number of
/// keys that it visits.
fn is_visited(alloc: Global, bytes: &[u8], last: usize, at: usize, count: usize) -> bool {
    let Some(root) = root_of::<Numbers>(alloc, bytes) else {
        return false;
    };
    let mut met = 0usize;
    let mut visit = |key: Ref<'_, ArchivedU32>| -> ControlFlow<usize> {
        met = met.saturating_add(1);
        if key.pos() == last {
            ControlFlow::Break(key.pos())
        } else {
            ControlFlow::Continue(())
        }
    };
    let broken = ArchivedBTreeSet::visit(root, &mut visit);
    broken.unwrap_or(0) == at && met == count
}

#[test]
fn visit_of_keys_ends_at_the_first_break(rt: HostRuntime) {
    let alloc = rt.alloc();
    assert!(rt;
        is_visited(alloc, FOUR, 8, 8, 2)
            && is_visited(alloc, FOUR, 0, 0, 4)
            && is_visited(alloc, NONE, 0, 0, 0)
    );
}

/// Checks whether an archived set is equal to one of std, as `same` says.
fn is_equal(alloc: Global, bytes: &[u8], keys: &[u32], same: bool) -> bool {
    let Some(root) = root_of::<Numbers>(alloc, bytes) else {
        return false;
    };
    match set_of(alloc, keys) {
        Some(other) => eq_btree_set(&root, &other.set) == same,
        None => false,
    }
}

/// Checks whether two archived sets are equal, as `same` says, and hashed alike.
fn are_equal(alloc: Global, bytes: &[u8], others: &[u8], same: bool) -> bool {
    let Some(root) = root_of::<Numbers>(alloc, bytes) else {
        return false;
    };
    let Some(other) = root_of::<Numbers>(alloc, others) else {
        return false;
    };
    let mut first = DefaultHasher::new();
    let mut second = DefaultHasher::new();
    ArchivedHash::hash(&root, &mut first);
    ArchivedHash::hash(&other, &mut second);
    ArchivedEq::eq(&root, &other) == same && (first.finish() == second.finish()) == same
}

/// Archived sets by their bytes, keys of sets of std, and whether they are equal.
const KEYS: [(&[u8], &[u32], bool); 7] = [
    (NONE, &[], true),
    (SIX, &[1, 2, 3, 4, 5, 6], true),
    (FOUR, &[80, 40, 20, 10], true),
    (FOUR, &[10, 20, 40], false),
    (FOUR, &[10, 20, 40, 81], false),
    (FOUR, &[11, 20, 40, 80], false),
    (FOUR, &[10, 20, 40, 80, 81], false),
];

#[test]
fn sets_of_the_same_keys_are_equal_and_hashed_alike(rt: HostRuntime) {
    for &(bytes, keys, same) in &KEYS {
        assert!(rt; is_equal(rt.alloc(), bytes, keys, same));
    }
    let mut unused = *FOUR;
    unused[20] = 7;
    assert!(rt;
        are_equal(rt.alloc(), FOUR, &unused, true) && are_equal(rt.alloc(), FOUR, SIX, false)
    );
}

#[test]
fn set_is_resolved(rt: HostRuntime) {
    let mut own = [0u8; 8];
    let resolver = BTreeSetResolver::from_pos(Some(0));
    let done = Numbers::resolve_from_len(4, resolver, Place::new(&mut own, 28));
    assert!(rt; done.is_ok() && own == [0xe4, 0xff, 0xff, 0xff, 4, 0, 0, 0]);
}

#[test]
fn keys_are_iterated_over_from_the_first(rt: HostRuntime) {
    assert!(rt;
        keys_from_the_first(rt.alloc(), NONE).is_none()
            && keys_from_the_first(rt.alloc(), FOUR) == Some((4, 4))
            && keys_from_the_first(rt.alloc(), SIX) == Some((6, 4))
    );
}
