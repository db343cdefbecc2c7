//! Tests of the entries of an archived map between two bounds.
use crate::archives::{EMPTY, EMPTY_LEAF, Numbers, ONE_PAIR, SIX_PAIRS, compare_numbers, root_of};
use archive_btree_maps::{ArchivedBTreeMap, Range};
use archive_shape::ArchivedU32;
use std::alloc::Global;
use std::ops::{Bound, RangeBounds};

/// Checks whether the word at a position is a number.
pub(crate) fn is_word(bytes: &[u8], pos: usize, number: u32) -> bool {
    match bytes.get(pos..pos.saturating_add(4)) {
        Some(word) => word == number.to_le_bytes().as_slice(),
        None => false,
    }
}

/// Checks whether entries are those of these keys, each of which leads to the number that is 10 more.
fn has_keys(bytes: &[u8], entries: Range<'_, ArchivedU32, ArchivedU32>, keys: &[u32]) -> bool {
    let mut met = 0usize;
    for (key, value) in entries {
        match keys.get(met) {
            Some(number)
                if is_word(bytes, key.pos(), *number)
                    && is_word(bytes, value.pos(), number.wrapping_add(10)) => {}
            _ => return false,
        }
        met = met.saturating_add(1);
    }
    met == keys.len()
}

/// Checks whether the entries of a map of numbers between two bounds are those of these keys.
fn has_between<R: RangeBounds<u32>>(alloc: Global, bytes: &[u8], bounds: R, keys: &[u32]) -> bool {
    match root_of::<Numbers>(alloc, bytes) {
        Some(root) => has_keys(bytes, ArchivedBTreeMap::range(root, bounds), keys),
        None => false,
    }
}

/// Checks the same by the tests' own comparison.
fn has_compared(
    alloc: Global,
    bytes: &[u8],
    bounds: (Bound<u32>, Bound<u32>),
    keys: &[u32],
) -> bool {
    match root_of::<Numbers>(alloc, bytes) {
        Some(root) => has_keys(
            bytes,
            ArchivedBTreeMap::range_with(root, bounds, &compare_numbers),
            keys,
        ),
        None => false,
    }
}

#[test]
fn ranges_of_every_kind(rt: HostRuntime) {
    let alloc = rt.alloc();
    assert!(rt;
        has_between(alloc, SIX_PAIRS, 2..4, &[2, 3])
            && has_between(alloc, SIX_PAIRS, 2..=4, &[2, 3, 4])
            && has_between(alloc, SIX_PAIRS, 5.., &[5, 6])
            && has_between(alloc, SIX_PAIRS, ..2, &[1])
            && has_between(alloc, SIX_PAIRS, ..=2, &[1, 2])
            && has_between(alloc, SIX_PAIRS, .., &[1, 2, 3, 4, 5, 6])
    );
}

/// Bounds: the bytes of a map, both bounds, and the keys between them.
const BOUNDS: [(&[u8], Bound<u32>, Bound<u32>, &[u32]); 12] = [
    (SIX_PAIRS, Bound::Excluded(1), Bound::Excluded(4), &[2, 3]),
    (
        SIX_PAIRS,
        Bound::Excluded(1),
        Bound::Included(4),
        &[2, 3, 4],
    ),
    (SIX_PAIRS, Bound::Excluded(5), Bound::Unbounded, &[6]),
    (SIX_PAIRS, Bound::Included(0), Bound::Excluded(2), &[1]),
    (SIX_PAIRS, Bound::Excluded(6), Bound::Unbounded, &[]),
    (SIX_PAIRS, Bound::Included(5), Bound::Included(2), &[]),
    (SIX_PAIRS, Bound::Excluded(4), Bound::Included(4), &[]),
    (SIX_PAIRS, Bound::Excluded(4), Bound::Excluded(4), &[]),
    (EMPTY, Bound::Unbounded, Bound::Unbounded, &[]),
    (ONE_PAIR, Bound::Included(8), Bound::Unbounded, &[]),
    (EMPTY_LEAF, Bound::Included(2), Bound::Excluded(4), &[2, 3]),
    (EMPTY_LEAF, Bound::Included(4), Bound::Unbounded, &[4, 5]),
];

#[test]
fn bounds_of_every_kind(rt: HostRuntime) {
    for &(bytes, start, end, keys) in &BOUNDS {
        assert!(rt;
            has_between(rt.alloc(), bytes, (start, end), keys)
                && has_compared(rt.alloc(), bytes, (start, end), keys)
        );
    }
}
