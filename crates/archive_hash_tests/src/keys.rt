//! Tests of looking up keys of each type that is archived in hash maps, by queries of each type that they are compared
//! with.
ghost use Rattle.std.specs.Prelude.{[]};

use crate::reading::root_of;
use crate::writing::{Memory, memory};
use archive_core_validation::HighValidator;
use archive_forms_rc::{ArchivedRcStr, RcFlavor};
use archive_forms_values::{ArchivedBoxedStr, ArchivedString, ArchivedTuple2, native_of};
use archive_forms_writing::{Serialize, serialize_using};
use archive_hash::OwnedHashMap;
use archive_hash_maps::{ArchivedHashMap, HashedKey, eq_hash_map};
use archive_hash_probing::FxHasher64;
use archive_shape::{ArchivedChar, ArchivedU16, ArchivedU32, CheckBytes};
use std::alloc::Global;
use std::boxed::BoxedStr;
use std::collections::HashMap;
use std::hash::Hash;
use std::num::{NonZeroI8, NonZeroU8};

/// Returns the map from the first key to 1 and from the second to 2, or `None` if memory runs out.
fn two<K: Eq + Hash + Drop>(alloc: Global, first: K, second: K) -> Option<OwnedHashMap<K, u32>> {
    let mut map = HashMap::new(alloc);
    if map.insert(first, 1).is_err() || map.insert(second, 2).is_err() {
        return None;
    }
    Some(OwnedHashMap { map })
}

/// Returns the archive of a map, or `None` if it cannot be written.
fn archive_of<T: Serialize<Memory>>(alloc: Global, value: &T) -> Option<Vec<u8>> {
    let mut serializer = memory(alloc);
    if serialize_using(value, &mut serializer).is_err() {
        return None;
    }
    Some(serializer.into_writer())
}

/// Returns the number that a query finds in the archive of a map, whose keys are read as `A`.
fn found<
    K: Serialize<Memory> + Eq + Hash + Drop,
    A: HashedKey<Q> + CheckBytes<HighValidator>,
    Q: Hash,
>(alloc: Global, map: Option<OwnedHashMap<K, u32>>, query: &Q) -> Option<u32>
    requires { A.knows [] }
{
    let owned = map?;
    let bytes = archive_of(alloc, &owned)?;
    match root_of::<ArchivedHashMap<A, ArchivedU32, FxHasher64>>(alloc, bytes.as_slice()) {
        Ok(root) => Some(native_of(ArchivedHashMap::get(root, query)?)),
        Err(_) => None,
    }
}

/// Returns the numbers that 7 and 8 find in archives of maps with the key 7, of one type of numbers each.
fn of_numbers(alloc: Global) -> Option<[(Option<u32>, Option<u32>); 4]> {
    let (seven, eight) = (NonZeroU8::new(7)?, NonZeroU8::new(8)?);
    let (less, greater) = (NonZeroI8::new(-7)?, NonZeroI8::new(7)?);
    Some([
        (
            found::<u8, u8, u8>(alloc, two(alloc, 200, 7), &7),
            found::<u8, u8, u8>(alloc, two(alloc, 200, 7), &8),
        ),
        (
            found::<i8, i8, i8>(alloc, two(alloc, -7, 7), &7),
            found::<i8, i8, i8>(alloc, two(alloc, -7, 7), &8),
        ),
        (
            found::<NonZeroU8, NonZeroU8, NonZeroU8>(alloc, two(alloc, seven, seven), &seven),
            found::<NonZeroU8, NonZeroU8, NonZeroU8>(alloc, two(alloc, seven, seven), &eight),
        ),
        (
            found::<NonZeroI8, NonZeroI8, NonZeroI8>(alloc, two(alloc, greater, greater), &greater),
            found::<NonZeroI8, NonZeroI8, NonZeroI8>(alloc, two(alloc, greater, greater), &less),
        ),
    ])
}

/// Returns the numbers that `true`, `false`, `ä`, `a`, the unit, a pair and another pair find.
fn of_others(alloc: Global) -> [Option<u32>; 7] {
    let (pair, other) = ((1, 300), (2, 30));
    [
        found::<bool, bool, bool>(alloc, two(alloc, true, true), &true),
        found::<bool, bool, bool>(alloc, two(alloc, true, true), &false),
        found::<char, ArchivedChar, char>(alloc, two(alloc, 'ä', 'z'), &'ä'),
        found::<char, ArchivedChar, char>(alloc, two(alloc, 'ä', 'z'), &'a'),
        found::<(), (), ()>(alloc, two(alloc, (), ()), &()),
        found::<(u8, u16), ArchivedTuple2<u8, ArchivedU16>, (u8, u16)>(
            alloc,
            two(alloc, pair, other),
            &other,
        ),
        found::<(u8, u16), ArchivedTuple2<u8, ArchivedU16>, (u8, u16)>(
            alloc,
            two(alloc, pair, other),
            &(1, 30),
        ),
    ]
}

#[test]
fn keys_of_each_type_are_found(rt: HostRuntime) {
    let alloc = rt.alloc();
    assert!(rt; of_numbers(alloc) == Some([(Some(2), None); 4]));
    assert!(rt; of_others(alloc) == [Some(2), None, Some(1), None, Some(2), Some(2), None]);
}

/// Returns a text of its own.
fn text(alloc: Global, bytes: &str) -> Option<String> {
    format!(in alloc; "{bytes}").ok()
}

/// Returns the map from a text of eleven bytes to 1 and from one of three to 2.
fn texts(alloc: Global) -> Option<OwnedHashMap<String, u32>> {
    two(alloc, text(alloc, "hello world")?, text(alloc, "foo")?)
}

fn boxes(alloc: Global) -> Option<OwnedHashMap<BoxedStr, u32>> {
    let (first, second) = (text(alloc, "hello world")?, text(alloc, "foo")?);
    two(alloc, first.into_boxed_str(), second.into_boxed_str())
}

/// Returns the numbers that a text finds as itself, as a `String`, in boxes and behind counted pointers, which are
/// archived as boxes are.
fn of_texts(alloc: Global, query: &str) -> Option<[Option<u32>; 4]> {
    let owned = text(alloc, query)?;
    Some([
        found::<String, ArchivedString, &str>(alloc, texts(alloc), &query),
        found::<String, ArchivedString, String>(alloc, texts(alloc), &owned),
        found::<BoxedStr, ArchivedBoxedStr, &str>(alloc, boxes(alloc), &query),
        found::<BoxedStr, ArchivedRcStr<RcFlavor>, &str>(alloc, boxes(alloc), &query),
    ])
}

#[test]
fn texts_are_found(rt: HostRuntime) {
    let alloc = rt.alloc();
    assert!(rt;
        of_texts(alloc, "hello world") == Some([Some(1); 4])
            && of_texts(alloc, "foo") == Some([Some(2); 4])
            && of_texts(alloc, "hello") == Some([None; 4])
    );
}

/// Returns whether the archive of a map of texts is equal to the map that it was made of, and to one with another key.
fn equal_to_own(alloc: Global) -> Option<(bool, bool)> {
    let owned = texts(alloc)?;
    let other = two(alloc, text(alloc, "hello world")?, text(alloc, "fo")?)?;
    let bytes = archive_of(alloc, &owned)?;
    match root_of::<ArchivedHashMap<ArchivedString, ArchivedU32, FxHasher64>>(
        alloc,
        bytes.as_slice(),
    ) {
        Ok(root) => Some((
            eq_hash_map(&root, &owned.map),
            eq_hash_map(&root, &other.map),
        )),
        Err(_) => None,
    }
}

#[test]
fn maps_of_texts_are_compared_with_their_own(rt: HostRuntime) {
    assert!(rt; equal_to_own(rt.alloc()) == Some((true, false)));
}

/// Returns whether the archive of a map has a key, and whether it is equal to another map.
fn compared<K: Serialize<Memory> + Eq + Hash + Drop, A: HashedKey<K> + CheckBytes<HighValidator>>(
    alloc: Global,
    map: Option<OwnedHashMap<K, u32>>,
    key: &K,
    other: Option<OwnedHashMap<K, u32>>,
) -> Option<(bool, bool)>
    requires { A.knows [] }
{
    let owned = map?;
    let other = other?;
    let bytes = archive_of(alloc, &owned)?;
    match root_of::<ArchivedHashMap<A, ArchivedU32, FxHasher64>>(alloc, bytes.as_slice()) {
        Ok(root) => Some((
            ArchivedHashMap::contains_key(root, key),
            eq_hash_map(&root, &other.map),
        )),
        Err(_) => None,
    }
}

/// Returns both of the map from the first key to 1 and from the second to 2: of the second key and of that map, and of
/// the third key and of the map from the first key to 1 and from the third to 2.
fn compared_with_two<
    K: Serialize<Memory> + Eq + Hash + Copy + Drop,
    A: HashedKey<K> + CheckBytes<HighValidator>,
>(alloc: Global, first: K, second: K, third: K) -> [Option<(bool, bool)>; 2]
    requires { A.knows [] }
{
    let map = two(alloc, first, second);
    let same = compared::<K, A>(alloc, map, &second, two(alloc, first, second));
    let map = two(alloc, first, second);
    [
        same,
        compared::<K, A>(alloc, map, &third, two(alloc, first, third)),
    ]
}

/// What both are: the second key and that map are there, and the third key and the other map are not.
const OWN_AND_OTHER: [Option<(bool, bool)>; 2] = [Some((true, true)), Some((false, false))];

#[test]
fn keys_of_each_type_are_contained_and_compared(rt: HostRuntime) {
    let alloc = rt.alloc();
    assert!(rt; compared_with_two::<bool, bool>(alloc, true, true, false) == OWN_AND_OTHER);
    assert!(rt; compared_with_two::<char, ArchivedChar>(alloc, 'ä', 'z', 'a') == OWN_AND_OTHER);
    assert!(rt; compared_with_two::<u8, u8>(alloc, 200, 7, 8) == OWN_AND_OTHER);
}

#[test]
fn pairs_as_keys_are_contained_and_compared(rt: HostRuntime) {
    type Pair = ArchivedTuple2<u8, ArchivedU16>;
    let (first, second, third) = ((1, 300), (2, 30), (1, 30));
    let compared = compared_with_two::<(u8, u16), Pair>(rt.alloc(), first, second, third);
    assert!(rt; compared == OWN_AND_OTHER);
}

/// Returns whether the archive of the map of boxed texts has a text, and whether it is equal to the map itself.
fn of_boxes(alloc: Global, key: &str) -> Option<(bool, bool)> {
    let key = text(alloc, key)?.into_boxed_str();
    compared::<BoxedStr, ArchivedBoxedStr>(alloc, boxes(alloc), &key, boxes(alloc))
}

#[test]
fn boxed_texts_as_keys_are_contained_and_compared(rt: HostRuntime) {
    assert!(rt;
        of_boxes(rt.alloc(), "foo") == Some((true, true))
            && of_boxes(rt.alloc(), "fo") == Some((false, true))
    );
}
