//! Tests of comparisons of archived maps with others, and with those of std.
ghost use Rattle.std.specs.Prelude.{false, ⊤};
ghost use Rattle.std.specs.Int.{w32};
ghost use Rattle.archive_shape_layout.specs.Shape.Shape.{number};
ghost use Rattle.archive_forms_values.specs.Parts.{HasValue};

use crate::archives::{EMPTY, EMPTY_LEAF, Numbers, ONE_PAIR, SIX_PAIRS, root_of};
use crate::writing::numbers;
use archive_btree_maps::{eq_btree_map, eq_btree_map_with, eq_map};
use archive_forms_comparing::ArchivedEq;
use archive_forms_values::native_of;
use archive_shape::{ArchivedU32, Ref};
use std::alloc::Global;

/// Checks whether an archived map is equal to one of std, as `same` says, and by a comparison of the values.
fn is_equal(alloc: Global, bytes: &[u8], keys: &[u32], values: &[u32], same: bool) -> bool {
    let Some(root) = root_of::<Numbers>(alloc, bytes) else {
        return false;
    };
    let Some(other) = numbers(alloc, keys, values) else {
        return false;
    };
    eq_btree_map(&root, &other.map) == same
        && eq_btree_map_with(&root, &other.map, &is_number) == same
}

/// Checks whether an archived number is equal to a number.
fn is_number(value: Ref<'_, ArchivedU32>, other: &u32) -> bool
    requires { HasValue (number w32 false) (λ _. ⊤) value.bytes.now value.pos }
{
    native_of(value) == *other
}

/// Checks whether two archived maps are equal, as `same` says, by either call.
fn are_equal(alloc: Global, bytes: &[u8], others: &[u8], same: bool) -> bool {
    let Some(root) = root_of::<Numbers>(alloc, bytes) else {
        return false;
    };
    let Some(other) = root_of::<Numbers>(alloc, others) else {
        return false;
    };
    ArchivedEq::eq(&root, &other) == same && eq_map(&root, &other) == same
}

/// Archived maps by their bytes, the keys and the values of maps of std, and whether they are equal.
const PAIRS: [(&[u8], &[u32], &[u32], bool); 9] = [
    (EMPTY, &[], &[], true),
    (ONE_PAIR, &[7], &[11], true),
    (
        SIX_PAIRS,
        &[6, 5, 4, 3, 2, 1],
        &[16, 15, 14, 13, 12, 11],
        true,
    ),
    (EMPTY_LEAF, &[5, 4, 3, 2, 1], &[15, 14, 13, 12, 11], true),
    (ONE_PAIR, &[], &[], false),
    (ONE_PAIR, &[7], &[12], false),
    (ONE_PAIR, &[8], &[11], false),
    (ONE_PAIR, &[7, 8], &[11, 11], false),
    (EMPTY, &[7], &[11], false),
];

#[test]
fn maps_are_equal_where_their_pairs_are(rt: HostRuntime) {
    for &(bytes, keys, values, same) in &PAIRS {
        assert!(rt; is_equal(rt.alloc(), bytes, keys, values, same));
    }
}

#[test]
fn archived_maps_are_equal_where_their_pairs_are(rt: HostRuntime) {
    let mut unused = *ONE_PAIR;
    unused[8] = 9;
    let mut changed = *ONE_PAIR;
    changed[24] = 12;
    assert!(rt;
        are_equal(rt.alloc(), ONE_PAIR, &unused, true)
            && are_equal(rt.alloc(), ONE_PAIR, &changed, false)
    );
}
