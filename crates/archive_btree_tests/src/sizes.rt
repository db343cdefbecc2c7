//! Tests of maps of many sizes, and of keys without bytes: they are written, searched, walked and read back.

use crate::archives::root_of;
use crate::writing::archive_of;
use archive_btree::{ArchivedBTreeMap, OwnedBTreeMap};
use archive_forms::Deserialize;
use archive_forms_values::{ArchivedString, native_of};
use archive_shape::{ArchivedI32, ArchivedU32, Error};
use std::alloc::Global;
use std::collections::BTreeMap;

/// A map from texts to numbers.
type Numbers = OwnedBTreeMap<String, i32, 5>;

type ArchivedNumbers = ArchivedBTreeMap<ArchivedString, ArchivedI32, 5>;

/// Returns the text of a number in decimal.
fn decimal(alloc: Global, number: i32) -> Option<String> {
    format!(in alloc; "{number}").ok()
}

/// Returns the map from the decimal texts of the numbers below `count` to those numbers.
fn decimals(alloc: Global, count: i32) -> Option<Numbers> {
    let mut map = BTreeMap::new(alloc);
    for number in 0..count {
        if map.insert(decimal(alloc, number)?, number).is_err() {
            return None;
        }
    }
    Some(OwnedBTreeMap { map })
}

/// Checks whether the decimal texts of the numbers below `count` lead to those numbers in an archive.
fn leads_to_all(alloc: Global, bytes: &[u8], count: i32) -> Option<bool> {
    let root = root_of::<ArchivedNumbers>(alloc, bytes)?;
    for number in 0..count {
        let text = decimal(alloc, number)?;
        match ArchivedBTreeMap::get(root, &text.as_str()) {
            Some(value) if native_of(value) == number => {}
            _ => return Some(false),
        }
    }
    Some(true)
}

/// Checks whether an archive has `len` entries, by its length and on walks of its keys and of its values.
fn has_len(alloc: Global, bytes: &[u8], len: usize) -> bool {
    match root_of::<ArchivedNumbers>(alloc, bytes) {
        Some(root) => {
            ArchivedBTreeMap::len(root) == len
                && ArchivedBTreeMap::keys(root).count() == len
                && ArchivedBTreeMap::values(root).count() == len
        }
        None => false,
    }
}

/// Checks whether a map is read back of an archive.
fn is_read_back(alloc: Global, bytes: &[u8], owned: &Numbers) -> bool {
    let Some(root) = root_of::<ArchivedNumbers>(alloc, bytes) else {
        return false;
    };
    let read: Result<Numbers, Error> = ArchivedBTreeMap::deserialize(&root, alloc, &mut ((), ()));
    match read {
        Ok(read) => read.map == owned.map,
        Err(_) => false,
    }
}

/// Checks whether the map of the numbers below `count`, which are `len`, is searched, walked and read back in its
/// archive.
fn is_archived(alloc: Global, count: i32, len: usize) -> bool {
    let Some(owned) = decimals(alloc, count) else {
        return false;
    };
    match archive_of(alloc, &owned) {
        Some(bytes) => {
            has_len(alloc, bytes.as_slice(), len)
                && is_read_back(alloc, bytes.as_slice(), &owned)
                && leads_to_all(alloc, bytes.as_slice(), count) == Some(true)
        }
        None => false,
    }
}

#[test]
fn maps_of_many_sizes_are_searched_and_read_back(rt: HostRuntime) {
    for count in 0..=200usize {
        assert!(rt; is_archived(rt.alloc(), count as i32, count));
    }
    assert!(rt; is_archived(rt.alloc(), 215, 215));
}

#[test]
fn a_map_of_a_hundred_thousand_entries_is_read_back(rt: HostRuntime) {
    assert!(rt; is_archived(rt.alloc(), 100_000, 100_000));
}

/// A map from the only key without bytes to a number.
type Keyless = OwnedBTreeMap<(), u32, 5>;

/// Checks whether such a map is read back of an archive.
fn is_read_back_without_key(alloc: Global, bytes: &[u8], owned: &Keyless) -> bool {
    let Some(root) = root_of::<ArchivedBTreeMap<(), ArchivedU32, 5>>(alloc, bytes) else {
        return false;
    };
    let read: Result<Keyless, Error> = ArchivedBTreeMap::deserialize(&root, alloc, &mut ((), ()));
    match read {
        Ok(read) => read.map == owned.map,
        Err(_) => false,
    }
}

/// Checks whether the map from that key to 10 is written and read back.
fn is_archived_without_key(alloc: Global) -> bool {
    let mut map = BTreeMap::new(alloc);
    if map.insert((), 10).is_err() {
        return false;
    }
    let owned = Keyless { map };
    match archive_of(alloc, &owned) {
        Some(bytes) => is_read_back_without_key(alloc, bytes.as_slice(), &owned),
        None => false,
    }
}

#[test]
fn keys_without_bytes_are_read_back(rt: HostRuntime) {
    assert!(rt; is_archived_without_key(rt.alloc()));
}
