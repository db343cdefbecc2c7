//! Tests of cursors that lend the entry that is left next, wherever they are, and of seals by a caller's comparison.
ghost use Rattle.std.specs.Prelude.{◌≡◌, List, length};
ghost use Rattle.archive_shape_layout.specs.Shape.Shape.{tree};
ghost use Rattle.archive_btree_layout.specs.Reading.{Place};
ghost use Rattle.archive_forms_values.specs.Parts.{HasValue, both};
ghost use Rattle.archive_btree_maps.specs.Walks.{BegunMap, IsWritten};
ghost use Rattle.archive_btree_maps.specs.Cursors.{HasEntries, HasRange};

use crate::archives::{Numbers, SIX_PAIRS, compare_numbers, root_of};
use archive_btree_maps::{ArchivedBTreeMap, IterSeal, RangeSeal};
use archive_shape::{ArchivedU32, OwnSeal, Portable, Ref, Seal};
use std::alloc::Global;
use std::ops::Bound;

/// Passes some entries. Returns the positions of the key and the value that are lent next, and the number of entries that
/// are left after them.
fn lent_after<K: Portable, V: Portable, const E: usize>(
    mut entries: IterSeal<'_, K, V>,
    passed: u32,
) -> Option<(usize, usize, usize)>
    requires { (m : BegunMap E K.shape V.shape K.knows V.knows) × (es : List Place)
        × HasEntries m entries es × IsWritten m entries.bytes.now }
{
    for _step in 0..passed {
        match entries.advance() {
            Some(_entry) => {}
            None => return None,
        }
    }
    let (key, value) = match entries.next() {
        Some((key, value)) => (key.pos(), value.pos()),
        None => return None,
    };
    Some((key, value, entries.len()))
}

/// The same of a cursor between two bounds, which does not count what is left.
fn lent_between<K: Portable, V: Portable, const E: usize>(
    mut entries: RangeSeal<'_, K, V>,
    passed: u32,
) -> Option<(usize, usize)>
    requires { (m : BegunMap E K.shape V.shape K.knows V.knows) × (es : List Place)
        × HasRange m entries es × IsWritten m entries.bytes.now }
{
    for _step in 0..passed {
        match entries.advance() {
            Some(_entry) => {}
            None => return None,
        }
    }
    match entries.next() {
        Some((key, value)) => Some((key.pos(), value.pos())),
        None => None,
    }
}

/// What a cursor over all entries of a map lends once it has passed some.
fn entry_after<K: Portable, V: Portable, const E: usize>(
    map: Seal<'_, ArchivedBTreeMap<K, V, E>>,
    passed: u32,
) -> Option<(usize, usize, usize)>
    requires { HasValue (tree E K.shape V.shape) (both K.knows V.knows) map.bytes.now map.pos }
{
    lent_after::<K, V, E>(ArchivedBTreeMap::iter_seal(map), passed)
}

/// What a cursor over the entries of a map of numbers between two bounds lends, by the tests' own comparison.
fn entry_between(
    map: Seal<'_, Numbers>,
    bounds: (Bound<u32>, Bound<u32>),
    passed: u32,
) -> Option<(usize, usize)>
    requires { HasValue ⟦<Numbers as Portable>⟧.shape ⟦<Numbers as Portable>⟧.knows map.bytes.now map.pos }
{
    lent_between::<ArchivedU32, ArchivedU32, 5>(
        ArchivedBTreeMap::range_seal_with(map, bounds, &compare_numbers),
        passed,
    )
}

/// Checks what a cursor over the map of six pairs lends once it has passed some entries.
fn lends(alloc: Global, passed: u32, lent: Option<(usize, usize, usize)>) -> bool {
    let mut bytes = *SIX_PAIRS;
    let Some(root) = root_of::<Numbers>(alloc, &bytes) else {
        return false;
    };
    let pos = root.pos();
    entry_after(Seal::<Numbers>::new(&mut bytes, pos), passed) == lent
}

/// The same of a cursor between two bounds.
fn lends_between(
    alloc: Global,
    bounds: (Bound<u32>, Bound<u32>),
    passed: u32,
    lent: Option<(usize, usize)>,
) -> bool {
    let mut bytes = *SIX_PAIRS;
    let Some(root) = root_of::<Numbers>(alloc, &bytes) else {
        return false;
    };
    let pos = root.pos();
    entry_between(Seal::<Numbers>::new(&mut bytes, pos), bounds, passed) == lent
}

/// What is lent after so many entries of the map of six pairs: the positions of a key and a value, and what is left.
const LENT: [(u32, Option<(usize, usize, usize)>); 7] = [
    (0, Some((4, 24, 5))),
    (1, Some((52, 72, 4))),
    (2, Some((56, 76, 3))),
    (3, Some((60, 80, 2))),
    (4, Some((64, 84, 1))),
    (5, Some((68, 88, 0))),
    (6, None),
];

#[test]
fn cursors_lend_the_entry_that_is_left_next(rt: HostRuntime) {
    for &(passed, lent) in &LENT {
        assert!(rt; lends(rt.alloc(), passed, lent));
    }
}

/// Bounds, and what is lent after so many entries between them.
const LENT_BETWEEN: [(Bound<u32>, Bound<u32>, u32, Option<(usize, usize)>); 5] = [
    (Bound::Included(2), Bound::Excluded(4), 0, Some((52, 72))),
    (Bound::Included(2), Bound::Excluded(4), 1, Some((56, 76))),
    (Bound::Included(2), Bound::Excluded(4), 2, None),
    (Bound::Unbounded, Bound::Included(1), 0, Some((4, 24))),
    (Bound::Excluded(5), Bound::Unbounded, 0, Some((68, 88))),
];

#[test]
fn cursors_between_bounds_lend_the_entry_that_is_left_next(rt: HostRuntime) {
    for &(start, end, passed, lent) in &LENT_BETWEEN {
        assert!(rt; lends_between(rt.alloc(), (start, end), passed, lent));
    }
}

/// Writes a number over the value of a key of the map of six pairs, if the map has the key. Returns the bytes.
fn put(alloc: Global, key: u32, number: u32) -> Option<[u8; 124]> {
    let mut bytes = *SIX_PAIRS;
    let pos = root_of::<Numbers>(alloc, &bytes)?.pos();
    let map = Seal::<Numbers>::new(&mut bytes, pos);
    if let Some((_key, value)) = ArchivedBTreeMap::get_key_value_seal_with(
        map,
        &key,
        &compare_numbers,
    ) {
        value.write(number);
    }
    Some(bytes)
}

/// Adds 100 to the value of a key of the map of six pairs in a call that the value is lent to, once by the keys' order and
/// once by the tests' own comparison. Returns what the value was at each call, and the bytes.
fn add_twice(alloc: Global, key: u32) -> Option<([Option<u32>; 2], [u8; 124])> {
    let mut bytes = *SIX_PAIRS;
    let pos = root_of::<Numbers>(alloc, &bytes)?.pos();
    let mut add = |_key: Ref<'_, ArchivedU32>, value: &mut OwnSeal<'_, ArchivedU32>| -> u32
        requires { length value.now.own.now ≡ 4 }
    {
        let number = value.as_ref().to_native();
        value.put(number.wrapping_add(100));
        number
    };
    let first = ArchivedBTreeMap::visit_key_value_seal(
        Seal::<Numbers>::new(&mut bytes, pos),
        &key,
        &mut add,
    );
    let pos = root_of::<Numbers>(alloc, &bytes)?.pos();
    let second = ArchivedBTreeMap::visit_key_value_seal_with(
        Seal::<Numbers>::new(&mut bytes, pos),
        &key,
        &compare_numbers,
        &mut add,
    );
    Some(([first, second], bytes))
}

/// Keys, their values in the map of six pairs before and after 100 is added, the position of the value, 0 for none, and
/// the value once 100 is added twice.
const VALUES: [(u32, [Option<u32>; 2], usize, u8); 4] = [
    (1, [Some(11), Some(111)], 24, 211),
    (3, [Some(13), Some(113)], 76, 213),
    (6, [Some(16), Some(116)], 88, 216),
    (7, [None, None], 0, 0),
];

/// Returns the bytes of the map of six pairs with a byte written over the first one of a value, if that is at a position.
fn with_byte(at: usize, byte: u8) -> [u8; 124] {
    let mut bytes = *SIX_PAIRS;
    if at != 0 && at < 124 {
        bytes[at] = byte;
    }
    bytes
}

#[test]
fn seals_by_a_comparison_write_one_value_alone(rt: HostRuntime) {
    for &(key, values, at, sum) in &VALUES {
        assert!(rt;
            put(rt.alloc(), key, 99) == Some(with_byte(at, 99))
                && add_twice(rt.alloc(), key) == Some((values, with_byte(at, sum)))
        );
    }
}
