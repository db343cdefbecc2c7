//! Tests of archived hash maps and index maps whose entries share a value.

use crate::reading::root_of;
use archive_core::{ArchivedRc, RcFlavor, Shared, to_bytes};
use archive_forms_values::ArchivedString;
use archive_hash::OwnedHashMap;
use archive_hash_maps::ArchivedHashMap;
use archive_hash_probing::FxHasher64;
use archive_index::ArchivedIndexMap;
use archive_shape::ArchivedU32;
use std::alloc::Global;
use std::collections::HashMap;
use std::rc::Rc;

type Value = ArchivedRc<ArchivedU32, RcFlavor>;

type Entries = ArchivedHashMap<ArchivedString, Value, FxHasher64>;

type Numbered = ArchivedIndexMap<ArchivedString, Value, FxHasher64>;

/// An index map from z and from a to the number 5: a table of three places, its sixteen controls and fifteen more, a byte
/// of padding, the number, the two entries, whose values at 56 and 68 lead to the number, and the map.
const ONE_VALUE: [u8; 88] = [
    1, 0, 0, 0, 0, 0, 0, 0, 0, 0, 0, 0, 0xff, 0x11, 0x55, 0xff, 0x11, 0x55, 0xff, 0xff, 0xff, 0xff,
    0xff, 0xff, 0xff, 0xff, 0xff, 0xff, 0xff, 0xff, 0xff, 0xff, 0xff, 0xff, 0xff, 0xff, 0xff, 0xff,
    0xff, 0xff, 0xff, 0xff, 0xff, 0, 5, 0, 0, 0, b'z', 0xff, 0xff, 0xff, 0xff, 0xff, 0xff, 0xff,
    0xf4, 0xff, 0xff, 0xff, b'a', 0xff, 0xff, 0xff, 0xff, 0xff, 0xff, 0xff, 0xe8, 0xff, 0xff, 0xff,
    0xc4, 0xff, 0xff, 0xff, 2, 0, 0, 0, 3, 0, 0, 0, 0xdc, 0xff, 0xff, 0xff,
];

/// Returns the archive of a hash map from z and from a to the number 5, under one key.
fn archive(alloc: Global) -> Option<Vec<u8>> {
    let mut map = HashMap::new(alloc);
    for text in ["z", "a"] {
        let key = String::from_str(alloc, text).ok()?;
        let value = Rc::new(alloc, 5u32).ok()?;
        if map.insert(key, Shared { key: 7, value }).is_err() {
            return None;
        }
    }
    let owned: OwnedHashMap<String, Shared<Rc<u32>>> = OwnedHashMap { map };
    to_bytes(alloc, &owned).ok()
}

/// Returns where the value under a key of a hash map lies.
fn found(alloc: Global, bytes: &[u8], key: &str) -> Option<usize> {
    let root = root_of::<Entries>(alloc, bytes).ok()?;
    let pointer = ArchivedHashMap::get(root, &key)?;
    Some(ArchivedRc::get(pointer).pos())
}

/// Returns where the value under a key of an index map lies.
fn found_in_order(alloc: Global, bytes: &[u8], key: &str) -> Option<usize> {
    let root = root_of::<Numbered>(alloc, bytes).ok()?;
    let pointer = ArchivedIndexMap::get(root, &key)?;
    Some(ArchivedRc::get(pointer).pos())
}

#[test]
fn a_value_of_two_entries_stands_once(rt: HostRuntime) {
    let alloc = rt.alloc();
    match archive(alloc) {
        Some(bytes) => {
            for key in ["z", "a"] {
                assert!(rt; found(alloc, bytes.as_slice(), key) == Some(0));
            }
        }
        None => assert!(rt; false),
    }
    for key in ["z", "a"] {
        assert!(rt; found_in_order(alloc, &ONE_VALUE, key) == Some(44));
    }
}
