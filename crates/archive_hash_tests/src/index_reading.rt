//! Tests of reading index maps and sets back as what they were written of.
ghost use Rattle.std.specs.Prelude.{IfOk};
ghost use Rattle.archive_forms.specs.Alike.{AreElementsOf, AreEntriesOf};

use crate::index_maps::{Keys, Numbers};
use crate::index_writing::{map_bytes, numbered, owned, set_bytes};
use crate::reading::root_of;
use archive_core::laws::{leaves_are_faithful, texts_are_faithful};
use archive_core::{Archive, deserialize, from_bytes, to_bytes};
use archive_forms_values::ArchivedString;
use archive_index::laws::index_maps_are_read_back;
use archive_index::{OwnedIndexMap, OwnedIndexSet};
use archive_shape::{ArchivedU32, Error};
use std::alloc::Global;

/// Returns whether the index map of texts, each with its number, is read back from its archive.
fn is_map_read_back(alloc: Global, texts: &[&str]) -> bool {
    let Some(pairs) = numbered(alloc, texts, 0) else {
        return false;
    };
    let Some((bytes, _)) = map_bytes(alloc, pairs.as_slice()) else {
        return false;
    };
    let Ok(root) = root_of::<Numbers>(alloc, bytes.as_slice()) else {
        return false;
    };
    match deserialize::<Vec<(String, u32)>, Numbers>(alloc, &root) {
        Ok(read) => read == pairs,
        Err(_) => false,
    }
}

/// Returns whether the index set of texts is read back from its archive.
fn is_set_read_back(alloc: Global, texts: &[&str]) -> bool {
    let Some(keys) = owned(alloc, texts) else {
        return false;
    };
    let Some(bytes) = set_bytes(alloc, keys.as_slice()) else {
        return false;
    };
    let Ok(root) = root_of::<Keys>(alloc, bytes.as_slice()) else {
        return false;
    };
    match deserialize::<Vec<String>, Keys>(alloc, &root) {
        Ok(read) => read == keys,
        Err(_) => false,
    }
}

/// Keys of maps and sets, in an order of their own; some occur twice, and some are longer than eight bytes.
const ROWS: [&[&str]; 5] = [
    &[],
    &["z"],
    &["z", "a"],
    &["a longer key", "", "a longer key"],
    &[
        "7", "6", "5", "4", "3", "2", "1", "0", "7", "16", "15", "14", "13", "12", "11", "10", "9",
    ],
];

#[test]
fn maps_and_sets_are_read_back_in_their_order(rt: HostRuntime) {
    for texts in ROWS {
        assert!(rt; is_map_read_back(rt.alloc(), texts) && is_set_read_back(rt.alloc(), texts));
    }
}

/// Archives pairs as an index map and reads them back. What is read has the pairs, in order.
fn pairs_read(
    alloc: Global,
    map: &OwnedIndexMap<String, u32>,
) -> Result<OwnedIndexMap<String, u32>, Error>
    ensures { IfOk result (λ read. AreEntriesOf ⟦<String as Archive>⟧.spelling ⟦<u32 as Archive>⟧.spelling
        map.now.pairs.items read.pairs.items) }
{
    let bytes = to_bytes(alloc, map)?;
    let archive = bytes.as_slice();
    texts_are_faithful();
    leaves_are_faithful::<u32, ()>();
    index_maps_are_read_back::<String, u32, ArchivedString, ArchivedU32>();
    let read = from_bytes::<OwnedIndexMap<String, u32>>(alloc, archive)?;
    Ok(read)
}

/// Archives keys as an index set and reads them back. What is read has the keys, in order.
fn keys_read(alloc: Global, set: &OwnedIndexSet<String>) -> Result<OwnedIndexSet<String>, Error>
    ensures { IfOk result (λ read. AreElementsOf ⟦<String as Archive>⟧.spelling set.now.keys.items read.keys.items) }
{
    let bytes = to_bytes(alloc, set)?;
    let archive = bytes.as_slice();
    texts_are_faithful();
    leaves_are_faithful::<u32, ()>();
    index_maps_are_read_back::<String, u32, ArchivedString, ArchivedU32>();
    let read = from_bytes::<OwnedIndexSet<String>>(alloc, archive)?;
    Ok(read)
}

/// Returns whether texts, each with its number, are archived as an index map and read back.
fn are_pairs_read(alloc: Global, texts: &[&str]) -> bool {
    let Some(pairs) = numbered(alloc, texts, 0) else {
        return false;
    };
    let map = OwnedIndexMap { pairs };
    match pairs_read(alloc, &map) {
        Ok(read) => read.pairs == map.pairs,
        Err(_) => false,
    }
}

/// Returns whether texts are archived as an index set and read back.
fn are_keys_read(alloc: Global, texts: &[&str]) -> bool {
    let Some(keys) = owned(alloc, texts) else {
        return false;
    };
    let set = OwnedIndexSet { keys };
    match keys_read(alloc, &set) {
        Ok(read) => read.keys == set.keys,
        Err(_) => false,
    }
}

#[test]
fn pairs_and_keys_are_archived_and_read_back(rt: HostRuntime) {
    for texts in ROWS {
        assert!(rt; are_pairs_read(rt.alloc(), texts) && are_keys_read(rt.alloc(), texts));
    }
}
