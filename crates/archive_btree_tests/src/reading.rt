//! Tests of reading archived maps.
ghost use Rattle.std.specs.Prelude.{false, ⊤};
ghost use Rattle.std.specs.Int.{w32};
ghost use Rattle.archive_shape_layout.specs.Shape.Shape.{number};
ghost use Rattle.archive_btree_maps.specs.Maps.{HasMap};

use crate::archives::{EMPTY, EMPTY_LEAF, Numbers, ONE_PAIR, SIX_PAIRS, compare_numbers, root_of};
use archive_btree_maps::{ArchivedBTreeMap, found_is_present};
use archive_forms_values::native_of;
use archive_shape::{ArchivedU32, Ref};
use std::alloc::Global;
use std::ops::ControlFlow;

/// Checks which value `get_counted` returns, and how many keys it compares.
fn is_counted(root: Ref<'_, Numbers>, key: u32, value: u32, count: usize) -> bool
    requires { HasMap 5 (number w32 false) (number w32 false) (λ _. ⊤) (λ _. ⊤) root }
{
    match ArchivedBTreeMap::get_counted(root, &key) {
        (Some(found), steps) => steps.comparisons == count
            && steps.strides == 0
            && native_of(found) == value,
        (None, steps) => steps.comparisons == count && steps.strides == 0 && value == 0,
    }
}

/// Checks where the value is that `get` returns, and which value `index` returns for a key that `get` finds.
fn is_indexed(root: Ref<'_, Numbers>, key: u32, at: usize, value: u32) -> bool
    requires { HasMap 5 (number w32 false) (number w32 false) (λ _. ⊤) (λ _. ⊤) root }
{
    match ArchivedBTreeMap::get(root, &key) {
        Some(found) => {
            found_is_present(root, &key, found);
            found.pos() == at && native_of(ArchivedBTreeMap::index(root, &key)) == value
        }
        None => at == 0,
    }
}

/// Checks where the value is that comes with a key.
fn is_paired(root: Ref<'_, Numbers>, key: u32, at: usize) -> bool
    requires { HasMap 5 (number w32 false) (number w32 false) (λ _. ⊤) (λ _. ⊤) root }
{
    match ArchivedBTreeMap::get_key_value(root, &key) {
        Some((_key, value)) => value.pos() == at,
        None => at == 0,
    }
}

/// Checks where the value is that comes with a key by the tests' own comparison.
fn is_compared(root: Ref<'_, Numbers>, key: u32, at: usize) -> bool
    requires { HasMap 5 (number w32 false) (number w32 false) (λ _. ⊤) (λ _. ⊤) root }
{
    match ArchivedBTreeMap::get_key_value_with(root, &key, &compare_numbers) {
        Some((_key, value)) => value.pos() == at,
        None => at == 0,
    }
}

/// Checks what each call that looks a key up returns: the value at a position, both 0 if the map does not have the key,
/// once so many keys are compared.
fn is_found(alloc: Global, bytes: &[u8], key: u32, at: usize, value: u32, count: usize) -> bool {
    match root_of::<Numbers>(alloc, bytes) {
        Some(root) => {
            is_counted(root, key, value, count)
                && is_indexed(root, key, at, value)
                && is_paired(root, key, at)
                && is_compared(root, key, at)
                && ArchivedBTreeMap::contains_key(root, &key) == (at != 0)
        }
        None => false,
    }
}

/// Look-ups: the bytes of a map, a key, the position of its value and the value, both 0 if the map does not have the
/// key, and the number of keys that are compared.
const LOOK_UPS: [(&[u8], u32, usize, u32, usize); 11] = [
    (EMPTY, 7, 0, 0, 0),
    (ONE_PAIR, 7, 24, 11, 1),
    (ONE_PAIR, 8, 0, 0, 1),
    (SIX_PAIRS, 0, 0, 0, 2),
    (SIX_PAIRS, 1, 24, 11, 2),
    (SIX_PAIRS, 2, 72, 12, 1),
    (SIX_PAIRS, 3, 76, 13, 2),
    (SIX_PAIRS, 6, 88, 16, 5),
    (SIX_PAIRS, 7, 0, 0, 5),
    (EMPTY_LEAF, 3, 80, 13, 3),
    (EMPTY_LEAF, 9, 0, 0, 5),
];

#[test]
fn keys_lead_to_their_values(rt: HostRuntime) {
    for &(bytes, key, at, value, count) in &LOOK_UPS {
        assert!(rt; is_found(rt.alloc(), bytes, key, at, value, count));
    }
}

/// Checks whether a walk has as many entries before it as values, and the keys and values that it returns are at these
/// positions, in order.
fn is_walked(alloc: Global, bytes: &[u8], keys: &[usize], values: &[usize]) -> bool {
    let Some(root) = root_of::<Numbers>(alloc, bytes) else {
        return false;
    };
    let entries = ArchivedBTreeMap::iter(root);
    if entries.len() != values.len() {
        return false;
    }
    let mut met = 0usize;
    for (key, value) in entries {
        if keys.get(met).copied().unwrap_or(0) != key.pos()
            || values.get(met).copied().unwrap_or(0) != value.pos()
        {
            return false;
        }
        met = met.saturating_add(1);
    }
    met == values.len()
}

/// Checks where a visit breaks that ends at the value at a position, which is 0 if it does not break, and how many
/// entries it visits.
fn is_visited(alloc: Global, bytes: &[u8], last: usize, at: usize, count: usize) -> bool {
    let Some(root) = root_of::<Numbers>(alloc, bytes) else {
        return false;
    };
    let mut met = 0usize;
    let mut visit = |_key: Ref<'_, ArchivedU32>, value: Ref<'_, ArchivedU32>| -> ControlFlow<
        usize,
    > {
        met = met.saturating_add(1);
        if value.pos() == last {
            ControlFlow::Break(value.pos())
        } else {
            ControlFlow::Continue(())
        }
    };
    let broken = ArchivedBTreeMap::visit(root, &mut visit);
    broken.unwrap_or(0) == at && met == count
}

/// Walks: the bytes of a map, and the positions of its keys and of its values.
const WALKS: [(&[u8], &[usize], &[usize]); 4] = [
    (EMPTY, &[], &[]),
    (ONE_PAIR, &[4], &[24]),
    (
        SIX_PAIRS,
        &[4, 52, 56, 60, 64, 68],
        &[24, 72, 76, 80, 84, 88],
    ),
    (EMPTY_LEAF, &[52, 56, 60, 64, 68], &[72, 76, 80, 84, 88]),
];

#[test]
fn entries_are_walked_and_visited_in_order(rt: HostRuntime) {
    let alloc = rt.alloc();
    for &(bytes, keys, values) in &WALKS {
        assert!(rt; is_walked(alloc, bytes, keys, values));
    }
    assert!(rt;
        is_visited(alloc, SIX_PAIRS, 76, 76, 3)
            && is_visited(alloc, SIX_PAIRS, 0, 0, 6)
            && is_visited(alloc, EMPTY_LEAF, 0, 0, 5)
    );
}
