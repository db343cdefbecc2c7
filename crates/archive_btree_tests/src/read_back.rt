//! Tests of maps that are archived and read back.
ghost use Rattle.std.specs.Prelude.{◌≡◌, IfOk};

use crate::writing::{numbers, set_of};
use archive_btree::laws::maps_are_read_back;
use archive_btree::{OwnedBTreeMap, OwnedBTreeSet};
use archive_core::laws::{
    alike_leaves_are_one, leaves_are_faithful, one_is_equal, read_back_is_written,
};
use archive_core::{from_bytes, to_bytes};
use archive_shape::{ArchivedU32, Error};
use std::alloc::Global;

/// A map of numbers with at most five entries in a node.
type Numbers = OwnedBTreeMap<u32, u32, 5>;

/// Archives a map of numbers and reads it back. What is read has the entries of the map, in order.
fn archived_and_read(alloc: Global, numbers: &Numbers) -> Result<Numbers, Error>
    ensures { IfOk result (λ read. read.map.entries ≡ numbers.now.map.entries) }
{
    let bytes = to_bytes(alloc, numbers)?;
    let archive = bytes.as_slice();
    let _entries = numbers.map.len();
    leaves_are_faithful::<u32, ()>();
    alike_leaves_are_one::<()>();
    one_is_equal::<u32>();
    maps_are_read_back::<u32, u32, ArchivedU32, ArchivedU32, 5>();
    read_back_is_written::<Numbers>();
    let read = from_bytes::<Numbers>(alloc, archive)?;
    Ok(read)
}

/// A set of numbers with at most five keys in a node.
type NumberSet = OwnedBTreeSet<u32, 5>;

/// Archives a set of numbers and reads it back. What is read has the keys of the set, in order.
fn set_archived_and_read(alloc: Global, numbers: &NumberSet) -> Result<NumberSet, Error>
    ensures { IfOk result (λ read. read.set.keys ≡ numbers.now.set.keys) }
{
    let bytes = to_bytes(alloc, numbers)?;
    let archive = bytes.as_slice();
    let _keys = numbers.set.len();
    leaves_are_faithful::<u32, ()>();
    alike_leaves_are_one::<()>();
    one_is_equal::<u32>();
    maps_are_read_back::<u32, u32, ArchivedU32, ArchivedU32, 5>();
    read_back_is_written::<NumberSet>();
    let read = from_bytes::<NumberSet>(alloc, archive)?;
    Ok(read)
}

#[test]
fn maps_of_no_one_and_six_entries_are_read_back(rt: HostRuntime) {
    let rows: [&[u32]; 3] = [&[], &[7], &[6, 2, 4, 1, 5, 3]];
    for keys in rows {
        let Some(map) = numbers(rt.alloc(), keys, keys) else {
            panic!(rt; "out of memory")
        };
        match archived_and_read(rt.alloc(), &map) {
            Ok(read) => assert!(rt; read.map.len() == keys.len() && read.map == map.map),
            Err(_) => panic!(rt; "refused"),
        }
    }
}

#[test]
fn sets_of_no_one_and_six_keys_are_read_back(rt: HostRuntime) {
    let rows: [&[u32]; 3] = [&[], &[7], &[6, 2, 4, 1, 5, 3]];
    for keys in rows {
        let Some(set) = set_of(rt.alloc(), keys) else {
            panic!(rt; "out of memory")
        };
        match set_archived_and_read(rt.alloc(), &set) {
            Ok(read) => assert!(rt; read.set.len() == keys.len() && read.set == set.set),
            Err(_) => panic!(rt; "refused"),
        }
    }
}
