//! Tests of archived maps of lists beside other values, and of the hash of a map.

use crate::archives::root_of;
use crate::writing::archive_of;
use archive_btree::{ArchivedBTreeMap, OwnedBTreeMap};
use archive_forms::Deserialize;
use archive_forms_comparing::ArchivedHash;
use archive_forms_values::{ArchivedString, ArchivedTuple2, ArchivedVec};
use archive_shape::{ArchivedI32, ArchivedU32};
use std::alloc::Global;
use std::collections::BTreeMap;
use std::hash::{DefaultHasher, Hash, Hasher};

/// A map from texts to lists of numbers.
type Lists = OwnedBTreeMap<String, Vec<i32>, 5>;

type ArchivedList = ArchivedVec<ArchivedI32>;

type ArchivedLists = ArchivedBTreeMap<ArchivedString, ArchivedList, 5>;

/// Returns the map from `Asdf` to a list of the number 2.
fn lists(alloc: Global) -> Option<Lists> {
    let mut list = Vec::new(alloc);
    let mut map = BTreeMap::new(alloc);
    let text = String::from_str(alloc, "Asdf").ok()?;
    if list.push(2).is_err() || map.insert(text, list).is_err() {
        return None;
    }
    Some(OwnedBTreeMap { map })
}

/// A map beside a list.
type Pair = (Lists, Vec<i32>);

type ArchivedPair = ArchivedTuple2<ArchivedLists, ArchivedList>;

/// Returns the map beside a list that is read back of an archive.
fn pair_of(alloc: Global, bytes: &[u8]) -> Option<Pair> {
    let root = root_of::<ArchivedPair>(alloc, bytes)?;
    match ArchivedTuple2::deserialize(&root, alloc, &mut (((), ()), ())) {
        Ok(pair) => Some(pair),
        Err(_) => None,
    }
}

/// Returns the archive of a map beside a list.
fn archive_of_pair(alloc: Global, pair: &Pair) -> Option<Vec<u8>> {
    archive_of(alloc, pair)
}

/// Checks whether that map beside an empty list is read back.
fn is_read_back_beside_a_list(alloc: Global) -> Option<bool> {
    let pair: Pair = (lists(alloc)?, Vec::new(alloc));
    let bytes = archive_of_pair(alloc, &pair)?;
    let read = pair_of(alloc, bytes.as_slice())?;
    Some(read.0.map == pair.0.map && read.1.is_empty())
}

#[test]
fn maps_of_lists_are_read_back(rt: HostRuntime) {
    assert!(rt; is_read_back_beside_a_list(rt.alloc()) == Some(true));
}

/// A map from texts to numbers.
type Numbers = OwnedBTreeMap<String, u32, 5>;

/// Returns the map from `a` to 1 and from `b` to 2.
fn letters(alloc: Global) -> Option<Numbers> {
    let mut map = BTreeMap::new(alloc);
    for (key, value) in [("a", 1), ("b", 2)] {
        if map
            .insert(String::from_str(alloc, key).ok()?, value)
            .is_err()
        {
            return None;
        }
    }
    Some(OwnedBTreeMap { map })
}

/// Returns the hash of an archived map.
fn hash_of(alloc: Global, bytes: &[u8]) -> Option<u64> {
    let root = root_of::<ArchivedBTreeMap<ArchivedString, ArchivedU32, 5>>(alloc, bytes)?;
    let mut hasher = DefaultHasher::new();
    ArchivedHash::hash(&root, &mut hasher);
    Some(hasher.finish())
}

/// Returns the hash of the archive of the map of letters.
fn hash_of_letters(alloc: Global) -> Option<u64> {
    let bytes = archive_of(alloc, &letters(alloc)?)?;
    hash_of(alloc, bytes.as_slice())
}

#[test]
fn maps_are_hashed_pair_by_pair(rt: HostRuntime) {
    let mut hasher = DefaultHasher::new();
    for (key, value) in [("a", 1u32), ("b", 2)] {
        key.hash(&mut hasher);
        value.hash(&mut hasher);
    }
    assert!(rt; hash_of_letters(rt.alloc()) == Some(hasher.finish()));
}
