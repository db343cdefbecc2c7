//! Tests of maps that are written as hash tables: their length, looking up and reading back their keys, rejected load
//! factors and claims, and that every scan writes the same bytes.
ghost use Rattle.std.specs.Prelude.{◌-◌, ◌^◌, ◌<◌};
ghost use Rattle.archive_forms_laws.specs.Serializing.{HasState};

use crate::reading::root_of;
use archive_core::collections::util::IteratorLengthMismatch;
use archive_core::{from_bytes, to_bytes};
use archive_core_serializing::Serializer;
use archive_forms_values::{ArchivedString, native_of};
use archive_hash::laws::found_is_present;
use archive_hash::{OwnedHashMap, OwnedHashSet, serialize_map_from_iter, serialize_set_from_iter};
use archive_hash_maps::{ArchivedHashMap, HashTableResolver};
use archive_hash_probing::{FxHasher64, Group1, Group8, Group16, Scan, hash_value};
use archive_hash_writing::{serialize_from_iter, serialize_from_iter_scan};
use archive_shape::{Allocator, ArchivedU32, Error, Positional, Registry, Writer};
use std::alloc::Global;
use std::collections::{HashMap, HashSet};

/// A serializer into a growing vector.
pub(crate) type Memory = Serializer<Vec<u8>, Global, ()>;

/// Creates a serializer that has written nothing.
pub(crate) fn memory(alloc: Global) -> Memory
    ensures room { ⟦<Memory as Writer>⟧.failures result < 2 ^ 64 - 1 }
    ensures state { HasState ⟦<Memory as Positional>⟧.pos ⟦<Memory as Registry>⟧.known result }
{
    Serializer::new(Vec::new(alloc), alloc, ())
}

/// A map from texts to numbers.
pub(crate) type Numbers = OwnedHashMap<String, u32>;

pub(crate) type ArchivedNumbers = ArchivedHashMap<ArchivedString, ArchivedU32, FxHasher64>;

/// Returns a number in decimal.
fn decimal(alloc: Global, number: u32) -> Option<String> {
    match format!(in alloc; "{number}") {
        Ok(text) => Some(text),
        Err(_) => None,
    }
}

/// Returns the size in bytes of the archive of a map of `count` numbers in decimal, each with three words of eight
/// bytes as its value.
fn size_of_decimals(alloc: Global, count: u32) -> Option<usize> {
    let mut map = HashMap::new(alloc);
    for number in 0..count {
        let key = decimal(alloc, number)?;
        if map.insert(key, [u64::from(number), 0, 0]).is_err() {
            return None;
        }
    }
    let owned: OwnedHashMap<String, [u64; 3]> = OwnedHashMap { map };
    match to_bytes(alloc, &owned) {
        Ok(bytes) => Some(bytes.len()),
        Err(_) => None,
    }
}

#[test]
fn tables_have_a_place_more_than_items_and_seven_of_eight_places_full(rt: HostRuntime) {
    for (count, size) in [
        (0, 12),
        (1, 108),
        (5, 236),
        (6, 268),
        (17, 668),
        (35, 1356),
        (36, 1388),
        (112, 4252),
        (215, 8124),
    ] {
        assert!(rt; size_of_decimals(rt.alloc(), count) == Some(size));
    }
}

/// Returns the map from the decimal texts of the numbers below `count` to those numbers.
pub(crate) fn decimals(alloc: Global, count: u32) -> Option<Numbers> {
    let mut map = HashMap::new(alloc);
    for number in 0..count {
        if map.insert(decimal(alloc, number)?, number).is_err() {
            return None;
        }
    }
    Some(OwnedHashMap { map })
}

/// Returns whether a map is read back from its archive.
fn is_read_back(alloc: Global, owned: &Numbers, bytes: &[u8]) -> bool {
    match from_bytes::<Numbers>(alloc, bytes) {
        Ok(read) => read.map == owned.map,
        Err(_) => false,
    }
}

/// Returns whether every key in the archive of the map of `count` numbers has its number, by `get` and by `index`, and a
/// text that is no key has none.
fn leads_to_all(alloc: Global, count: u32, bytes: &[u8]) -> bool {
    let Ok(root) = root_of::<ArchivedNumbers>(alloc, bytes) else {
        return false;
    };
    for number in 0..=count {
        let Some(text) = decimal(alloc, number) else {
            return false;
        };
        let query = text.as_str();
        match ArchivedHashMap::get(root, &query) {
            Some(value) => {
                found_is_present(root, &query, value);
                let index = ArchivedHashMap::index(root, &query);
                if number == count || native_of(value) != number || native_of(index) != number {
                    return false;
                }
            }
            None if number == count => {}
            None => return false,
        }
    }
    !ArchivedHashMap::contains_key(root, &"none")
}

/// Returns whether the map of `count` numbers is read back from its archive, and each of its keys is found there.
fn is_kept(alloc: Global, count: u32) -> bool {
    let Some(owned) = decimals(alloc, count) else {
        return false;
    };
    match to_bytes(alloc, &owned) {
        Ok(bytes) => {
            is_read_back(alloc, &owned, bytes.as_slice())
                && leads_to_all(alloc, count, bytes.as_slice())
        }
        Err(_) => false,
    }
}

/// Writes the table of a map's entries, where the caller claims `claimed` entries, with the given load factor.
fn write_claimed<S: Writer + Allocator>(
    claimed: usize,
    owned: &OwnedHashMap<u32, u32>,
    load_factor: (usize, usize),
    serializer: &mut S,
) -> Result<HashTableResolver, Error>
    requires room { S.failures serializer.old < 2 ^ 64 - 1 }
    requires state { HasState S.pos S.known serializer.old }
{
    serialize_map_from_iter(claimed, owned.map.iter(), load_factor, serializer)
}

/// Returns the result of writing a map of `count` numbers where `claimed` entries are claimed.
fn claiming(
    alloc: Global,
    claimed: usize,
    count: u32,
    load_factor: (usize, usize),
) -> Result<HashTableResolver, Error> {
    let mut map = HashMap::new(alloc);
    for number in 0..count {
        if map.insert(number, number).is_err() {
            return Err(Error::OutOfMemory);
        }
    }
    let mut serializer = memory(alloc);
    write_claimed(claimed, &OwnedHashMap { map }, load_factor, &mut serializer)
}

/// Returns whether a scan writes these bytes as the table of the numbers below `count` in their order.
fn is_written_by<G: Scan>(alloc: Global, count: u32, bytes: &[u8]) -> bool {
    let mut serializer = memory(alloc);
    let hash = |number: &u32| -> u64 { hash_value::<u32, FxHasher64>(number) };
    serialize_from_iter_scan::<G, _, u32, _, _>(
        0..count,
        count as usize,
        (7, 8),
        hash,
        &mut serializer,
    ).is_ok()
        && serializer.into_writer().as_slice() == bytes
}

/// Returns the bytes of the same table, where the call does not name a scan.
fn written(alloc: Global, count: u32) -> Option<Vec<u8>> {
    let mut serializer = memory(alloc);
    let hash = |number: &u32| -> u64 { hash_value::<u32, FxHasher64>(number) };
    match serialize_from_iter::<_, u32, _, _>(
        0..count,
        count as usize,
        (7, 8),
        hash,
        &mut serializer,
    ) {
        Ok(_) => Some(serializer.into_writer()),
        Err(_) => None,
    }
}

/// Returns whether every scan writes the same bytes as that call.
fn are_written_alike(alloc: Global, count: u32) -> bool {
    match written(alloc, count) {
        Some(bytes) => {
            let bytes = bytes.as_slice();
            is_written_by::<Group1>(alloc, count, bytes)
                && is_written_by::<Group8>(alloc, count, bytes)
                && is_written_by::<Group16>(alloc, count, bytes)
        }
        None => false,
    }
}

#[test]
fn every_scan_writes_the_same_bytes(rt: HostRuntime) {
    for count in [0, 1, 3, 15, 16, 17, 40, 65, 215] {
        assert!(rt; are_written_alike(rt.alloc(), count));
    }
}

/// A map from texts to maps.
type Maps = OwnedHashMap<String, Numbers>;

/// Returns an owned copy of a text.
pub(crate) fn text(alloc: Global, from: &str) -> Option<String> {
    match String::from_str(alloc, from) {
        Ok(text) => Some(text),
        Err(_) => None,
    }
}

/// Returns the map from `x` to the map of one number, and from `y` to the empty map.
fn maps(alloc: Global) -> Option<Maps> {
    let mut map = HashMap::new(alloc);
    for (key, count) in [("x", 1), ("y", 0)] {
        let key = text(alloc, key)?;
        if map.insert(key, decimals(alloc, count)?).is_err() {
            return None;
        }
    }
    Some(OwnedHashMap { map })
}

/// Returns those maps as they are read back from their archive.
fn maps_read_back(alloc: Global) -> Option<Maps> {
    let owned = maps(alloc)?;
    let Ok(bytes) = to_bytes(alloc, &owned) else {
        return None;
    };
    match from_bytes::<Maps>(alloc, &bytes) {
        Ok(read) => Some(read),
        Err(_) => None,
    }
}

/// Returns the number of entries of the map at a key of maps, and the value of `0` in it, if there are maps.
fn map_at(maps: &Option<Maps>, key: &str) -> Option<Option<(usize, Option<u32>)>> {
    let Some(maps) = maps else {
        return None;
    };
    match maps.map.get(key) {
        Some(inner) => Some(Some((inner.map.len(), inner.map.get("0").copied()))),
        None => Some(None),
    }
}

#[test]
fn maps_of_maps_are_read_back(rt: HostRuntime) {
    let read = maps_read_back(rt.alloc());
    assert!(rt;
        map_at(&read, "x") == Some(Some((1, Some(0))))
            && map_at(&read, "y") == Some(Some((0, None)))
            && map_at(&read, "z") == Some(None)
    );
}

/// Returns the set of the numbers below `count`.
fn numbers(alloc: Global, count: u32) -> Option<OwnedHashSet<u32>> {
    let mut set = HashSet::new(alloc);
    for number in 0..count {
        if set.insert(number).is_err() {
            return None;
        }
    }
    Some(OwnedHashSet { set })
}

/// Returns whether that set is read back from its archive.
fn is_set_read_back(alloc: Global, count: u32) -> bool {
    let Some(owned) = numbers(alloc, count) else {
        return false;
    };
    let Ok(bytes) = to_bytes(alloc, &owned) else {
        return false;
    };
    match from_bytes::<OwnedHashSet<u32>>(alloc, &bytes) {
        Ok(read) => read.set == owned.set,
        Err(_) => false,
    }
}

#[test]
fn maps_and_sets_of_many_sizes_are_read_back(rt: HostRuntime) {
    for count in [0, 1, 5, 6, 17, 35, 36, 112, 215, 2_000] {
        assert!(rt; is_kept(rt.alloc(), count) && is_set_read_back(rt.alloc(), count));
    }
}

/// Writes the table of a set's keys, where the caller claims `claimed` keys.
fn write_keys<S: Writer + Allocator>(
    claimed: usize,
    owned: &OwnedHashSet<u32>,
    serializer: &mut S,
) -> Result<HashTableResolver, Error>
    requires room { S.failures serializer.old < 2 ^ 64 - 1 }
    requires state { HasState S.pos S.known serializer.old }
{
    serialize_set_from_iter(claimed, owned.set.iter(), (7, 8), serializer)
}

/// Returns the result of writing a set of `count` numbers where `claimed` keys are claimed.
fn claiming_keys(alloc: Global, claimed: usize, count: u32) -> Result<HashTableResolver, Error> {
    match numbers(alloc, count) {
        Some(owned) => write_keys(claimed, &owned, &mut memory(alloc)),
        None => Err(Error::OutOfMemory),
    }
}

#[test]
fn wrong_claims_and_load_factors_are_refused(rt: HostRuntime) {
    let alloc = rt.alloc();
    let refused = Err(Error::InvalidLoadFactor);
    assert!(rt;
        claiming(alloc, 3, 3, (0, 8)) == refused
            && claiming(alloc, 3, 3, (9, 8)) == refused
            && claiming(alloc, 3, 3, (8, 8)) == Ok(HashTableResolver::from_pos(Some(32)))
    );
    for (expected, actual) in [(3, 2), (0, 1), (1, 3)] {
        let refused = Err(IteratorLengthMismatch { expected, actual });
        assert!(rt; claiming(alloc, expected, actual as u32, (7, 8)) == refused);
    }
}

#[test]
fn wrong_claims_of_keys_are_refused(rt: HostRuntime) {
    let alloc = rt.alloc();
    let refused = IteratorLengthMismatch {
        expected: 2,
        actual: 3,
    };
    assert!(rt;
        claiming_keys(alloc, 3, 3) == Ok(HashTableResolver::from_pos(Some(16)))
            && claiming_keys(alloc, 2, 3) == Err(refused)
    );
}
