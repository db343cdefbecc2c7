//! Tests of tables that are archived and read back.
ghost use Rattle.std.specs.Prelude.{◌≡◌, IfOk};
ghost use Rattle.std.specs.HashMap.{get, hash_map_len};
ghost use Rattle.std.specs.HashSet.{contains, hash_set_len};
ghost use Rattle.std.specs.String.{string_eq};

use crate::writing::{Numbers, decimals};
use archive_core::laws::{
    alike_leaves_are_one, alike_texts_are_equal, leaves_are_faithful, read_back_is_written,
    texts_are_faithful,
};
use archive_core::{from_bytes, to_bytes};
use archive_forms_values::ArchivedString;
use archive_hash::OwnedHashSet;
use archive_hash::laws::maps_are_read_back;
use archive_shape::{ArchivedU32, Error};
use std::alloc::Global;
use std::collections::HashSet;

/// Archives a map from texts to numbers and reads it back. What is read has as many entries as the map, and leads from each
/// text to the same number.
fn archived_and_read(alloc: Global, numbers: &Numbers) -> Result<Numbers, Error>
    ensures count { IfOk result (λ read. hash_map_len read.map ≡ hash_map_len numbers.now.map) }
    ensures numbers { IfOk result (λ read. (key : _)
        → get string_eq read.map key ≡ get string_eq numbers.now.map key) }
{
    let bytes = to_bytes(alloc, numbers)?;
    let archive = bytes.as_slice();
    let _entries = numbers.map.len();
    texts_are_faithful();
    leaves_are_faithful::<u32, ()>();
    alike_texts_are_equal();
    alike_leaves_are_one::<()>();
    maps_are_read_back::<String, u32, ArchivedString, ArchivedU32>();
    read_back_is_written::<Numbers>();
    let read = from_bytes::<Numbers>(alloc, archive)?;
    Ok(read)
}

#[test]
fn maps_of_no_one_and_a_hundred_texts_are_read_back(rt: HostRuntime) {
    for count in [0, 1, 100] {
        let Some(map) = decimals(rt.alloc(), count) else {
            panic!(rt; "out of memory")
        };
        match archived_and_read(rt.alloc(), &map) {
            Ok(read) => assert!(rt; read.map.len() == count as usize && read.map == map.map),
            Err(_) => panic!(rt; "refused"),
        }
    }
}

/// Archives a set of texts and reads it back. What is read has as many texts as the set, and the same.
fn archived_and_read_set(
    alloc: Global,
    texts: &OwnedHashSet<String>,
) -> Result<OwnedHashSet<String>, Error>
    ensures count { IfOk result (λ read. hash_set_len read.set ≡ hash_set_len texts.now.set) }
    ensures texts { IfOk result (λ read. (text : _)
        → contains string_eq read.set text ≡ contains string_eq texts.now.set text) }
{
    let bytes = to_bytes(alloc, texts)?;
    let archive = bytes.as_slice();
    let _keys = texts.set.len();
    texts_are_faithful();
    leaves_are_faithful::<u32, ()>();
    alike_texts_are_equal();
    maps_are_read_back::<String, u32, ArchivedString, ArchivedU32>();
    let read = from_bytes::<OwnedHashSet<String>>(alloc, archive)?;
    Ok(read)
}

/// Returns the set of the decimal texts of the numbers below `count`.
fn texts(alloc: Global, count: u32) -> Option<OwnedHashSet<String>> {
    let mut set = HashSet::new(alloc);
    for number in 0..count {
        if set.insert(format!(in alloc; "{number}").ok()?).is_err() {
            return None;
        }
    }
    Some(OwnedHashSet { set })
}

#[test]
fn sets_of_no_one_and_a_hundred_texts_are_read_back(rt: HostRuntime) {
    for count in [0, 1, 100] {
        let Some(set) = texts(rt.alloc(), count) else {
            panic!(rt; "out of memory")
        };
        match archived_and_read_set(rt.alloc(), &set) {
            Ok(read) => assert!(rt; read.set.len() == count as usize && read.set == set.set),
            Err(_) => panic!(rt; "refused"),
        }
    }
}
