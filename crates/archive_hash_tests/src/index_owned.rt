//! Tests of pairs that are archived as index maps, and keys as index sets: their bytes, and which entry is found of a key
//! that occurs twice.
ghost use Rattle.std.specs.Prelude.{IfOk};
ghost use Rattle.archive_hash.specs.Owned.{key_entries};
ghost use Rattle.archive_index.specs.Answering.{IsWrittenMap};

use crate::index_maps::{NOTHING, Numbers, TWO, TWO_KEYS};
use crate::index_writing::{numbered, owned};
use crate::reading::root_of;
use archive_core::{Archive, to_bytes};
use archive_forms_values::{ArchivedString, native_of};
use archive_index::laws::{owned_map_is_written, owned_set_is_written};
use archive_index::{ArchivedIndexMap, OwnedIndexMap, OwnedIndexSet};
use archive_shape::{ArchivedU32, Error, Portable};
use std::alloc::Global;
use std::hash::Hash;

/// Returns the archive of pairs, which is that of an index map of them.
pub(crate) fn archive_of(alloc: Global, map: &OwnedIndexMap<String, u32>) -> Result<Vec<u8>, Error>
    ensures { IfOk result (λ bytes. IsWrittenMap ⟦<ArchivedString as Portable>⟧.shape ⟦<ArchivedU32 as Portable>⟧.shape
        ⟦<ArchivedString as Portable>⟧.knows ⟦<ArchivedU32 as Portable>⟧.knows ⟦<String as Archive>⟧.spelling
        ⟦<u32 as Archive>⟧.spelling bytes.items ⟦<String as Hash>⟧.hash_input map.now.pairs.items) }
{
    owned_map_is_written::<String, u32>();
    to_bytes(alloc, map)
}

/// Returns the archive of texts, each with a number, as an index map.
fn archive(alloc: Global, texts: &[&str], first: u32) -> Option<Vec<u8>> {
    let pairs = numbered(alloc, texts, first)?;
    archive_of(alloc, &OwnedIndexMap { pairs }).ok()
}

/// Returns whether the index map of texts, each with a number from 1 on, has this archive.
fn is_written(alloc: Global, texts: &[&str], expected: &[u8]) -> bool {
    match archive(alloc, texts, 1) {
        Some(bytes) => bytes.as_slice() == expected,
        None => false,
    }
}

#[test]
fn pairs_are_archived_in_their_order(rt: HostRuntime) {
    assert!(rt; is_written(rt.alloc(), &["z", "a"], &TWO) && is_written(rt.alloc(), &[], &NOTHING));
}

/// Returns the archive of keys, which is that of an index map of them, each with `()`.
fn set_archive_of(alloc: Global, set: &OwnedIndexSet<String>) -> Result<Vec<u8>, Error>
    ensures { IfOk result (λ bytes. IsWrittenMap ⟦<ArchivedString as Portable>⟧.shape ⟦<() as Portable>⟧.shape
        ⟦<ArchivedString as Portable>⟧.knows ⟦<() as Portable>⟧.knows ⟦<String as Archive>⟧.spelling
        ⟦<() as Archive>⟧.spelling bytes.items ⟦<String as Hash>⟧.hash_input (key_entries set.now.keys.items)) }
{
    owned_set_is_written::<String>();
    to_bytes(alloc, set)
}

/// Returns whether the index set of texts has this archive.
fn is_set_written(alloc: Global, texts: &[&str], expected: &[u8]) -> bool {
    let Some(keys) = owned(alloc, texts) else {
        return false;
    };
    match set_archive_of(alloc, &OwnedIndexSet { keys }) {
        Ok(bytes) => bytes.as_slice() == expected,
        Err(_) => false,
    }
}

#[test]
fn keys_are_archived_in_their_order(rt: HostRuntime) {
    assert!(rt;
        is_set_written(rt.alloc(), &["z", "a"], &TWO_KEYS)
            && is_set_written(rt.alloc(), &[], &NOTHING)
    );
}

/// Returns whether each look-up of a text in the index map of texts, each with its number, finds this number and no other.
fn has_number(alloc: Global, texts: &[&str], text: &str, number: Option<u32>) -> bool {
    let Some(bytes) = archive(alloc, texts, 0) else {
        return false;
    };
    let Ok(root) = root_of::<Numbers>(alloc, bytes.as_slice()) else {
        return false;
    };
    let index = ArchivedIndexMap::get_index_of(root, &text);
    match (ArchivedIndexMap::get_full(root, &text), index, number) {
        (Some((full, _, value)), Some(index), Some(number)) => {
            native_of(value) == number && full == number as usize && index == number as usize
        }
        (None, None, None) => true,
        _ => false,
    }
}

/// Texts, one of them, and the number of its first entry.
const ROWS: [(&[&str], &str, Option<u32>); 6] = [
    (&["a", "a"], "a", Some(0)),
    (
        &["a longer key", "", "a longer key"],
        "a longer key",
        Some(0),
    ),
    (&["a longer key", "", "a longer key"], "", Some(1)),
    (&["a longer key", "", "a longer key"], "none", None),
    (&["7", "6", "5", "4", "6", "3", "2", "5", "1"], "5", Some(2)),
    (&["7", "6", "5", "4", "6", "3", "2", "5", "1"], "1", Some(8)),
];

#[test]
fn the_first_of_equal_keys_is_found(rt: HostRuntime) {
    for (texts, text, number) in ROWS {
        assert!(rt; has_number(rt.alloc(), texts, text, number));
    }
}
