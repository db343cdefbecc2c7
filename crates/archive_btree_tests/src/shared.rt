//! Tests of archived maps whose entries share a value.

use crate::archives::root_of;
use archive_btree::{ArchivedBTreeMap, OwnedBTreeMap};
use archive_core::{ArchivedRc, RcFlavor, Shared, to_bytes};
use archive_shape::ArchivedU32;
use std::alloc::Global;
use std::collections::BTreeMap;
use std::rc::Rc;

/// A map from numbers to shared numbers.
type Entries = OwnedBTreeMap<u32, Shared<Rc<u32>>, 5>;

type ArchivedEntries = ArchivedBTreeMap<ArchivedU32, ArchivedRc<ArchivedU32, RcFlavor>, 5>;

/// The bytes of a map from 1 and from 2 to the number 5, which stands once: the number, a leaf, whose values at 28 and 32
/// lead to it, and the map, whose root is 48 bytes before it.
const ONE_VALUE: &[u8; 60] =
    b"\x05\0\0\0\0\0\0\0\x01\0\0\0\x02\0\0\0\0\0\0\0\0\0\0\0\0\0\0\0\xe4\xff\xff\xff\xe0\xff\xff\xff\0\0\0\0\0\0\0\0\0\0\0\0\x02\0\0\0\xd0\xff\xff\xff\x02\0\0\0";

/// Returns the map from 1 and from 2 to the number 5, under one key.
fn entries(alloc: Global) -> Option<Entries> {
    let mut map = BTreeMap::new(alloc);
    for number in [1, 2] {
        let value = Rc::new(alloc, 5).ok()?;
        if map.insert(number, Shared { key: 7, value }).is_err() {
            return None;
        }
    }
    Some(OwnedBTreeMap { map })
}

/// Returns the archive of that map.
fn archive(alloc: Global) -> Option<Vec<u8>> {
    let map = entries(alloc)?;
    to_bytes(alloc, &map).ok()
}

/// Returns where the value under a key lies.
fn found(alloc: Global, bytes: &[u8], key: u32) -> Option<usize> {
    let root = root_of::<ArchivedEntries>(alloc, bytes)?;
    let pointer = ArchivedBTreeMap::get(root, &key)?;
    Some(ArchivedRc::get(pointer).pos())
}

#[test]
fn a_value_of_two_entries_stands_once(rt: HostRuntime) {
    let alloc = rt.alloc();
    match archive(alloc) {
        Some(bytes) => assert!(rt; bytes.as_slice() == ONE_VALUE.as_slice()),
        None => assert!(rt; false),
    }
    for key in [1, 2] {
        assert!(rt; found(alloc, ONE_VALUE, key) == Some(0));
    }
}
