//! Tests of looking up keys of each type that is archived, by queries of each type that they are compared with.
ghost use Rattle.std.specs.Prelude.{[]};

use crate::archives::root_of;
use crate::ranges::is_word;
use crate::writing::{Memory, archive_of};
use archive_btree::{ArchivedBTreeMap, OwnedBTreeMap, eq_btree_map};
use archive_core_validation::HighValidator;
use archive_forms_rc::{ArchivedRcStr, RcFlavor};
use archive_forms_values::{ArchivedBoxedStr, ArchivedString, ArchivedTuple2, native_of};
use archive_forms_writing::Serialize;
use archive_shape::{ArchivedChar, ArchivedKey, ArchivedU16, ArchivedU32, CheckBytes};
use std::alloc::Global;
use std::boxed::BoxedStr;
use std::collections::BTreeMap;
use std::num::{NonZeroI8, NonZeroU8};
use std::ops::Bound;

/// Returns the map from the first key to 1 and from the second to 2, or `None` if memory runs out.
fn two<K: Ord + Drop>(alloc: Global, first: K, second: K) -> Option<BTreeMap<K, u32>> {
    let mut map = BTreeMap::new(alloc);
    if map.insert(first, 1).is_err() || map.insert(second, 2).is_err() {
        return None;
    }
    Some(map)
}

/// Returns the number that a query finds in the archive of a map, whose keys are read as `A`.
fn found<K: Serialize<Memory> + Ord + Drop, A: ArchivedKey<Q> + CheckBytes<HighValidator>, Q>(
    alloc: Global,
    map: Option<BTreeMap<K, u32>>,
    query: &Q,
) -> Option<u32>
    requires { A.knows [] }
{
    let owned: OwnedBTreeMap<K, u32, 5> = OwnedBTreeMap { map: map? };
    let bytes = archive_of(alloc, &owned)?;
    let root = root_of::<ArchivedBTreeMap<A, ArchivedU32, 5>>(alloc, bytes.as_slice())?;
    Some(native_of(ArchivedBTreeMap::get(root, query)?))
}

/// Returns the number that a byte finds in the archive of the map from 7 to 1 and from 200 to 2.
fn of_bytes(alloc: Global, query: u8) -> Option<u32> {
    found::<u8, u8, u8>(alloc, two(alloc, 7, 200), &query)
}

/// The same of the map from -7 to 1 and from 7 to 2.
fn of_signed(alloc: Global, query: i8) -> Option<u32> {
    found::<i8, i8, i8>(alloc, two(alloc, -7, 7), &query)
}

/// The same of the bytes 7 and 200, and of -7 and 7, as numbers that are not 0.
fn of_nonzero(alloc: Global, query: u8) -> Option<Option<u32>> {
    let map = two(alloc, NonZeroU8::new(7)?, NonZeroU8::new(200)?);
    Some(found::<NonZeroU8, NonZeroU8, NonZeroU8>(alloc, map, &NonZeroU8::new(query)?))
}

fn of_signed_nonzero(alloc: Global, query: i8) -> Option<Option<u32>> {
    let map = two(alloc, NonZeroI8::new(-7)?, NonZeroI8::new(7)?);
    Some(found::<NonZeroI8, NonZeroI8, NonZeroI8>(alloc, map, &NonZeroI8::new(query)?))
}

#[test]
fn keys_of_one_byte_are_found(rt: HostRuntime) {
    let alloc = rt.alloc();
    assert!(rt;
        of_bytes(alloc, 7) == Some(1)
            && of_bytes(alloc, 200) == Some(2)
            && of_bytes(alloc, 8).is_none()
            && of_signed(alloc, -7) == Some(1)
            && of_signed(alloc, 7) == Some(2)
            && of_signed(alloc, 0).is_none()
    );
    assert!(rt;
        of_nonzero(alloc, 200) == Some(Some(2))
            && of_nonzero(alloc, 8) == Some(None)
            && of_signed_nonzero(alloc, -7) == Some(Some(1))
            && of_signed_nonzero(alloc, -8) == Some(None)
    );
}

/// Returns the numbers that `false`, `true`, `a`, `ä` and the unit find in archives of maps of one type each.
fn of_others(alloc: Global) -> [Option<u32>; 5] {
    [
        found::<bool, bool, bool>(alloc, two(alloc, true, true), &false),
        found::<bool, bool, bool>(alloc, two(alloc, true, true), &true),
        found::<char, ArchivedChar, char>(alloc, two(alloc, 'ä', 'z'), &'a'),
        found::<char, ArchivedChar, char>(alloc, two(alloc, 'ä', 'z'), &'ä'),
        found::<(), (), ()>(alloc, two(alloc, (), ()), &()),
    ]
}

#[test]
fn truth_values_chars_and_units_are_found(rt: HostRuntime) {
    assert!(rt; of_others(rt.alloc()) == [None, Some(2), None, Some(1), Some(2)]);
}

/// Returns the number that a pair finds in the archive of the map from (1, 300) to 1 and from (2, 30) to 2.
fn of_pairs(alloc: Global, query: (u8, u16)) -> Option<u32> {
    found::<(u8, u16), ArchivedTuple2<u8, ArchivedU16>, (u8, u16)>(
        alloc,
        two(alloc, (1, 300), (2, 30)),
        &query,
    )
}

#[test]
fn pairs_are_found(rt: HostRuntime) {
    let alloc = rt.alloc();
    assert!(rt;
        of_pairs(alloc, (1, 300)) == Some(1)
            && of_pairs(alloc, (2, 30)) == Some(2)
            && of_pairs(alloc, (1, 30)).is_none()
            && of_pairs(alloc, (2, 300)).is_none()
    );
}

/// Returns a text of its own.
fn text(alloc: Global, bytes: &str) -> Option<String> {
    format!(in alloc; "{bytes}").ok()
}

/// Returns the map from a text of eleven bytes to 1 and from one of three to 2.
fn texts(alloc: Global) -> Option<BTreeMap<String, u32>> {
    two(alloc, text(alloc, "hello world")?, text(alloc, "foo")?)
}

fn boxes(alloc: Global) -> Option<BTreeMap<BoxedStr, u32>> {
    let (first, second) = (text(alloc, "hello world")?, text(alloc, "foo")?);
    two(alloc, first.into_boxed_str(), second.into_boxed_str())
}

/// Returns the numbers that a text finds as itself, as a `String`, in boxes and behind counted pointers, which are
/// archived as boxes are.
fn of_texts(alloc: Global, query: &str) -> Option<[Option<u32>; 4]> {
    let owned = text(alloc, query)?;
    Some([
        found::<String, ArchivedString, &str>(alloc, texts(alloc), &query),
        found::<String, ArchivedString, String>(alloc, texts(alloc), &owned),
        found::<BoxedStr, ArchivedBoxedStr, &str>(alloc, boxes(alloc), &query),
        found::<BoxedStr, ArchivedRcStr<RcFlavor>, &str>(alloc, boxes(alloc), &query),
    ])
}

#[test]
fn texts_are_found(rt: HostRuntime) {
    let alloc = rt.alloc();
    assert!(rt;
        of_texts(alloc, "hello world") == Some([Some(1); 4])
            && of_texts(alloc, "foo") == Some([Some(2); 4])
            && of_texts(alloc, "hello") == Some([None; 4])
    );
}

/// Checks whether the archive of a map, whose keys are read as `A`, has a key as `has` says, and whether the numbers of the
/// keys that are not less are these, in order. Returns `None` if memory runs out.
fn begins<K: Serialize<Memory> + Ord + Drop, A: ArchivedKey<Q> + CheckBytes<HighValidator>, Q>(
    alloc: Global,
    map: Option<BTreeMap<K, u32>>,
    query: &Q,
    has: bool,
    numbers: &[u32],
) -> Option<bool>
    requires { A.knows [] }
{
    let owned: OwnedBTreeMap<K, u32, 5> = OwnedBTreeMap { map: map? };
    let bytes = archive_of(alloc, &owned)?;
    let root = root_of::<ArchivedBTreeMap<A, ArchivedU32, 5>>(alloc, bytes.as_slice())?;
    let bounds: (Bound<&Q>, Bound<&Q>) = (Bound::Included(query), Bound::Unbounded);
    let mut met = 0usize;
    for (_key, number) in ArchivedBTreeMap::range::<Q, _>(root, bounds) {
        match numbers.get(met) {
            Some(expected) if is_word(bytes.as_slice(), number.pos(), *expected) => {}
            _ => return Some(false),
        }
        met = met.saturating_add(1);
    }
    Some(met == numbers.len() && ArchivedBTreeMap::contains_key(root, query) == has)
}

#[test]
fn ranges_begin_at_truth_values_and_chars(rt: HostRuntime) {
    let alloc = rt.alloc();
    let rows: [(bool, &[u32]); 2] = [(false, &[1, 2]), (true, &[2])];
    for (query, numbers) in rows {
        let map = two(alloc, false, true);
        assert!(rt; begins::<bool, bool, bool>(alloc, map, &query, true, numbers) == Some(true));
    }
    let rows: [(char, bool, &[u32]); 3] = [
        ('a', false, &[2, 1]),
        ('ä', true, &[1]),
        ('ö', false, &[]),
    ];
    for (query, has, numbers) in rows {
        let map = two(alloc, 'ä', 'z');
        assert!(rt;
            begins::<char, ArchivedChar, char>(alloc, map, &query, has, numbers) == Some(true)
        );
    }
}

#[test]
fn ranges_begin_at_pairs_and_texts(rt: HostRuntime) {
    let alloc = rt.alloc();
    let rows: [((u8, u8), bool, &[u32]); 3] = [
        ((1, 200), true, &[1, 2]),
        ((1, 201), false, &[2]),
        ((2, 31), false, &[]),
    ];
    for (query, has, numbers) in rows {
        let map = two(alloc, (1, 200), (2, 30));
        assert!(rt;
            begins::<(u8, u8), ArchivedTuple2<u8, u8>, (u8, u8)>(alloc, map, &query, has, numbers)
                == Some(true)
        );
    }
    let rows: [(&str, bool, &[u32]); 3] = [
        ("foo", true, &[2, 1]),
        ("g", false, &[1]),
        ("i", false, &[]),
    ];
    for (query, has, numbers) in rows {
        let map = texts(alloc);
        assert!(rt;
            begins::<String, ArchivedString, &str>(alloc, map, &query, has, numbers) == Some(true)
        );
    }
}

/// Returns whether the archive of a map of texts is equal to the map that it was made of, and to one with another key.
fn equal_to_own(alloc: Global) -> Option<(bool, bool)> {
    let owned: OwnedBTreeMap<String, u32, 5> = OwnedBTreeMap { map: texts(alloc)? };
    let bytes = archive_of(alloc, &owned)?;
    let root = root_of::<ArchivedBTreeMap<ArchivedString, ArchivedU32, 5>>(
        alloc,
        bytes.as_slice(),
    )?;
    let same = eq_btree_map(&root, &owned.map);
    let other = two(alloc, text(alloc, "hello world")?, text(alloc, "fo")?)?;
    Some((same, eq_btree_map(&root, &other)))
}

#[test]
fn maps_of_texts_are_compared_with_their_own(rt: HostRuntime) {
    assert!(rt; equal_to_own(rt.alloc()) == Some((true, false)));
}
