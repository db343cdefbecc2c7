//! Tests of writing to archived maps through seals.
ghost use Rattle.std.specs.Prelude.{◌≡◌, List, length};
ghost use Rattle.archive_shape_layout.specs.Shape.Shape.{tree};
ghost use Rattle.archive_btree_layout.specs.Reading.{Place};
ghost use Rattle.archive_forms_values.specs.Parts.{HasValue, both};
ghost use Rattle.archive_btree_maps.specs.Walks.{BegunMap, IsWritten};
ghost use Rattle.archive_btree_maps.specs.Cursors.{HasRange};

use crate::archives::{FOUR_TEXTS, Texts, root_of};
use archive_btree_maps::{ArchivedBTreeMap, RangeSeal};
use archive_forms_values::ArchivedString;
use archive_shape::{ArchivedKey, ArchivedU32, OwnSeal, Portable, Ref, Seal};
use std::alloc::{AllocError, Global};
use std::ops::{Bound, ControlFlow, RangeBounds};

/// Adds 10 to each value in order, up to the first that becomes `last`, and returns that, or 0 if none does. Returns
/// `None` if the bytes are refused.
fn add_to_each(alloc: Global, bytes: &mut [u8], last: u32) -> Option<u32> {
    let pos = root_of::<Texts>(alloc, bytes)?.pos();
    let mut visit = |_key: Ref<'_, ArchivedString>, value: &mut OwnSeal<
        '_,
        ArchivedU32,
    >| -> ControlFlow<u32>
        requires { length value.now.own.now ≡ 4 }
    {
        let number = value.as_ref().to_native().wrapping_add(10);
        value.put(number);
        if number == last {
            ControlFlow::Break(number)
        } else {
            ControlFlow::Continue(())
        }
    };
    Some(ArchivedBTreeMap::visit_seal(Seal::<Texts>::new(bytes, pos), &mut visit).unwrap_or(0))
}

/// Writes a number over the value of a key, if the map has the key. Returns `false` if the bytes are refused.
fn set_value(alloc: Global, bytes: &mut [u8], key: &str, number: u32) -> bool {
    let Some(root) = root_of::<Texts>(alloc, bytes) else {
        return false;
    };
    let pos = root.pos();
    if let Some(value) = ArchivedBTreeMap::get_seal(Seal::<Texts>::new(bytes, pos), &key) {
        value.write(number);
    }
    true
}

/// Writes a number over the value of a key through the seal that comes with the key, if the map has the key. Returns
/// `false` if the bytes are refused.
fn set_beside_key(alloc: Global, bytes: &mut [u8], key: &str, number: u32) -> bool {
    let Some(root) = root_of::<Texts>(alloc, bytes) else {
        return false;
    };
    let pos = root.pos();
    let map = Seal::<Texts>::new(bytes, pos);
    if let Some((_key, value)) = ArchivedBTreeMap::get_key_value_seal(map, &key) {
        value.write(number);
    }
    true
}

/// Checks whether a visit that adds 10 to each value up to `last` breaks with a number, or with none where that is 0, and
/// whether the values alone are changed, to those expected, once 123 and 456 are written over the values of two keys.
fn edits_to(alloc: Global, last: u32, keys: (&str, &str), broken: u32, values: &[u8; 16]) -> bool {
    let mut bytes = *FOUR_TEXTS;
    let mut expected = *FOUR_TEXTS;
    expected[44..60].copy_from_slice(values);
    add_to_each(alloc, &mut bytes, last) == Some(broken)
        && set_value(alloc, &mut bytes, keys.0, 123)
        && set_beside_key(alloc, &mut bytes, keys.1, 456)
        && bytes == expected
}

/// Edits: where the visit ends, the keys of the two values, where the visit breaks, and the values, in words.
const EDITS: [(u32, (&str, &str), u32, &[u8; 16]); 4] = [
    // 30, 90, 50 and 20
    (
        0,
        ("qux", "qux"),
        0,
        b"\x1e\0\0\0\x5a\0\0\0\x32\0\0\0\x14\0\0\0",
    ),
    // 30, 90, 40 and 10
    (
        90,
        ("qux", "qux"),
        90,
        b"\x1e\0\0\0\x5a\0\0\0\x28\0\0\0\x0a\0\0\0",
    ),
    // 30, 456, 50 and 123
    (
        0,
        ("foo", "bat"),
        0,
        b"\x1e\0\0\0\xc8\x01\0\0\x32\0\0\0\x7b\0\0\0",
    ),
    // 30, 90, 456 and 20
    (
        0,
        ("qux", "baz"),
        0,
        b"\x1e\0\0\0\x5a\0\0\0\xc8\x01\0\0\x14\0\0\0",
    ),
];

#[test]
fn visits_and_seals_of_keys_write_the_values_alone(rt: HostRuntime) {
    for &(last, keys, broken, values) in &EDITS {
        assert!(rt; edits_to(rt.alloc(), last, keys, broken, values));
    }
}

/// Fills the own bytes of each value with a byte, in calls that the values are lent to, and appends its position and the
/// number of values left after it to `met`.
fn visit_values<K: Portable, V: Portable, const E: usize>(
    map: Seal<'_, ArchivedBTreeMap<K, V, E>>,
    byte: u8,
    met: &mut Vec<(usize, usize)>,
) -> Result<(), AllocError>
    requires { HasValue (tree E K.shape V.shape) (both K.knows V.knows) map.bytes.now map.pos }
{
    let mut fill = |value: &mut OwnSeal<'_, V>| -> usize {
        value.own.fill(byte);
        value.pos()
    };
    let mut values = ArchivedBTreeMap::values_seal(map);
    while let Some(at) = values.visit_next(&mut fill) {
        met.push((at, values.len()))?;
    }
    Ok(())
}

/// Checks what `visit_values` appends for a map, and whether the values alone are filled with 7.
fn fills(alloc: Global, met: &[(usize, usize)]) -> bool {
    let mut bytes = *FOUR_TEXTS;
    let Some(root) = root_of::<Texts>(alloc, &bytes) else {
        return false;
    };
    let pos = root.pos();
    let mut places = Vec::new(alloc);
    let done = visit_values(Seal::<Texts>::new(&mut bytes, pos), 7, &mut places);
    let mut expected = *FOUR_TEXTS;
    expected[44..60].fill(7);
    done.is_ok() && places.as_slice() == met && bytes == expected
}

#[test]
fn calls_that_values_are_lent_to_write_each_value(rt: HostRuntime) {
    assert!(rt; fills(rt.alloc(), &[(44, 3), (48, 2), (52, 1), (56, 0)]));
}

/// Fills the value that a cursor lends first with a byte. Returns its position, and the number of entries that are left after
/// it.
fn fill_first<K: Portable, V: Portable, const E: usize>(
    map: Seal<'_, ArchivedBTreeMap<K, V, E>>,
    byte: u8,
) -> Option<(usize, usize)>
    requires { HasValue (tree E K.shape V.shape) (both K.knows V.knows) map.bytes.now map.pos }
{
    let mut entries = ArchivedBTreeMap::iter_seal(map);
    let at = match entries.next() {
        Some((_key, value)) => {
            value.own.fill(byte);
            value.pos()
        }
        None => return None,
    };
    Some((at, entries.len()))
}

/// Fills the value that a cursor over the values lends first with a byte. Returns its position, and the number of values
/// that are left after it.
fn fill_first_value<K: Portable, V: Portable, const E: usize>(
    map: Seal<'_, ArchivedBTreeMap<K, V, E>>,
    byte: u8,
) -> Option<(usize, usize)>
    requires { HasValue (tree E K.shape V.shape) (both K.knows V.knows) map.bytes.now map.pos }
{
    let mut values = ArchivedBTreeMap::values_seal(map);
    let at = match values.next() {
        Some(value) => {
            value.own.fill(byte);
            value.pos()
        }
        None => return None,
    };
    Some((at, values.len()))
}

/// Returns what both return of the map of four texts, and the bytes after the values were filled with 7.
fn filled_first(
    alloc: Global,
) -> Option<(Option<(usize, usize)>, Option<(usize, usize)>, [u8; 76])> {
    let pos = root_of::<Texts>(alloc, FOUR_TEXTS)?.pos();
    let (mut bytes, mut again) = (*FOUR_TEXTS, *FOUR_TEXTS);
    let first = fill_first(Seal::<Texts>::new(&mut bytes, pos), 7);
    let value = fill_first_value(Seal::<Texts>::new(&mut again, pos), 7);
    if bytes == again {
        Some((first, value, bytes))
    } else {
        None
    }
}

#[test]
fn cursors_count_what_is_left(rt: HostRuntime) {
    let mut expected = *FOUR_TEXTS;
    expected[44..48].fill(7);
    let first = Some((44, 3));
    assert!(rt; filled_first(rt.alloc()) == Some((first, first, expected)));
}

/// Appends the positions of the values of the entries between two bounds.
fn note_range<K: ArchivedKey<Q>, V: Portable, Q, R: RangeBounds<Q>, const E: usize>(
    map: Seal<'_, ArchivedBTreeMap<K, V, E>>,
    bounds: R,
    met: &mut Vec<usize>,
) -> Result<(), AllocError>
    requires { HasValue (tree E K.shape V.shape) (both K.knows V.knows) map.bytes.now map.pos }
{
    note_values::<K, V, E>(ArchivedBTreeMap::range_seal(map, bounds), met)
}

/// Appends the positions of the values that a cursor between two bounds visits, four at most.
fn note_values<K: Portable, V: Portable, const E: usize>(
    mut entries: RangeSeal<'_, K, V>,
    met: &mut Vec<usize>,
) -> Result<(), AllocError>
    requires { (m : BegunMap E K.shape V.shape K.knows V.knows) × (es : List Place)
        × HasRange m entries es × IsWritten m entries.bytes.now }
{
    for _step in 0..4u32 {
        match entries.advance() {
            Some(entry) => met.push(entry.value)?,
            None => return Ok(()),
        }
    }
    Ok(())
}

/// Checks whether the values of the keys between two bounds are at these positions.
fn are_between(alloc: Global, bounds: (Bound<&str>, Bound<&str>), positions: &[usize]) -> bool {
    let mut bytes = *FOUR_TEXTS;
    let Some(root) = root_of::<Texts>(alloc, &bytes) else {
        return false;
    };
    let pos = root.pos();
    let mut met = Vec::new(alloc);
    let map = Seal::<Texts>::new(&mut bytes, pos);
    let done = note_range::<ArchivedString, ArchivedU32, _, _, 5>(map, bounds, &mut met);
    done.is_ok() && met.as_slice() == positions
}

/// Bounds, and the positions of the values between them.
const BOUNDS: [(Bound<&str>, Bound<&str>, &[usize]); 4] = [
    (Bound::Included("bat"), Bound::Included("baz"), &[48, 52]),
    (Bound::Included("bat"), Bound::Excluded("baz"), &[48]),
    (Bound::Excluded("baz"), Bound::Unbounded, &[56]),
    (Bound::Included("c"), Bound::Excluded("b"), &[]),
];

#[test]
fn cursors_pass_the_values_of_a_range(rt: HostRuntime) {
    for &(start, end, positions) in &BOUNDS {
        assert!(rt; are_between(rt.alloc(), (start, end), positions));
    }
}
