//! Tests of writing index maps and sets: the bytes of their data and their own bytes, and what is rejected.
ghost use Rattle.std.specs.Prelude.{◌-◌, ◌^◌, ◌<◌};
ghost use Rattle.archive_forms_laws.specs.Serializing.{HasState, SerializesBy};

use crate::index_maps::{EXCHANGED, Keys, NOTHING, Numbers, TWO, TWO_KEYS};
use crate::writing::{memory, text};
use archive_core::collections::util::IteratorLengthMismatch;
use archive_forms_writing::{ByArchive, Serialize, serialize_element};
use archive_hash_maps::HashTableResolver;
use archive_index::{
    ArchivedIndexMap, ArchivedIndexSet, IndexMapResolver, IndexSetResolver,
    serialize_entries_with_each,
};
use archive_shape::{Allocator, Error, Place, Writer};
use std::alloc::Global;
use std::collections::BTreeMap;
use std::hash::Hash;
use std::marker::PhantomData;

/// Returns the ordered map of std from a to 2 and from z to 1.
fn ordered(alloc: Global) -> Option<BTreeMap<String, u32>> {
    let mut map = BTreeMap::new(alloc);
    for (key, number) in [("z", 1), ("a", 2)] {
        if map.insert(text(alloc, key)?, number).is_err() {
            return None;
        }
    }
    Some(map)
}

/// Writes the index map of a map's entries, where the caller claims `claimed` entries, with the given load factor.
fn write_map<S: Writer + Allocator>(
    claimed: usize,
    map: &BTreeMap<String, u32>,
    load_factor: (usize, usize),
    serializer: &mut S,
) -> Result<IndexMapResolver, Error>
    requires room { S.failures serializer.old < 2 ^ 64 - 1 }
    requires state { HasState S.pos S.known serializer.old }
{
    Numbers::serialize_from_iter(claimed, map.iter(), load_factor, serializer)
}

/// Returns the own bytes of a map of `len` entries behind its data.
fn own_bytes(len: usize, resolver: IndexMapResolver, data: &[u8]) -> Result<[u8; 16], Error> {
    let mut own = [0; 16];
    let place = Place::<Numbers>::within(&mut own, 0, data.len());
    match ArchivedIndexMap::resolve_from_len(len, (7, 8), resolver, place) {
        Ok(()) => Ok(own),
        Err(e) => Err(e),
    }
}

/// Returns whether that map is written as an index map of these bytes, whose entries are in the order of their keys.
fn is_map_written(alloc: Global, bytes: &[u8; 84]) -> bool {
    let Some(map) = ordered(alloc) else {
        return false;
    };
    let mut serializer = memory(alloc);
    let Ok(resolver) = write_map(2, &map, (7, 8), &mut serializer) else {
        return false;
    };
    let data = serializer.into_writer();
    match own_bytes(2, resolver, data.as_slice()) {
        Ok(own) => data.as_slice() == &bytes[..68] && own.as_slice() == &bytes[68..],
        Err(_) => false,
    }
}

/// Returns the result of writing that map where `claimed` entries are claimed.
fn claiming(
    alloc: Global,
    claimed: usize,
    load_factor: (usize, usize),
) -> Result<IndexMapResolver, Error> {
    match ordered(alloc) {
        Some(map) => write_map(claimed, &map, load_factor, &mut memory(alloc)),
        None => Err(Error::OutOfMemory),
    }
}

#[test]
fn wrong_claims_and_load_factors_are_refused(rt: HostRuntime) {
    let refused = IteratorLengthMismatch {
        expected: 3,
        actual: 2,
    };
    for (claimed, load_factor, error) in [
        (3, (7, 8), refused),
        (2, (0, 8), Error::InvalidLoadFactor),
        (2, (9, 8), Error::InvalidLoadFactor),
    ] {
        assert!(rt; claiming(rt.alloc(), claimed, load_factor) == Err(error));
    }
}

/// Writes the index set of keys, where the caller claims `claimed` keys.
fn write_keys<S: Writer + Allocator>(
    claimed: usize,
    keys: &[String],
    serializer: &mut S,
) -> Result<IndexMapResolver, Error>
    requires room { S.failures serializer.old < 2 ^ 64 - 1 }
    requires state { HasState S.pos S.known serializer.old }
{
    Keys::serialize_from_iter(claimed, keys.iter(), (7, 8), serializer)
}

/// Returns copies of texts.
pub(crate) fn owned(alloc: Global, texts: &[&str]) -> Option<Vec<String>> {
    let mut keys = Vec::new(alloc);
    for &key in texts {
        if keys.push(text(alloc, key)?).is_err() {
            return None;
        }
    }
    Some(keys)
}

/// Returns the archive of the set of keys.
pub(crate) fn set_bytes(alloc: Global, keys: &[String]) -> Option<Vec<u8>> {
    let mut serializer = memory(alloc);
    let Ok(map) = write_keys(keys.len(), keys, &mut serializer) else {
        return None;
    };
    let mut bytes = serializer.into_writer();
    let mut own = [0; 16];
    let place = Place::<Keys>::within(&mut own, 0, bytes.len());
    let resolver = IndexSetResolver { map };
    if ArchivedIndexSet::resolve_from_len(keys.len(), (7, 8), resolver, place).is_err()
        || bytes.extend_from_slice(&own).is_err()
    {
        return None;
    }
    Some(bytes)
}

/// Returns whether the set of z and a is written as these bytes.
fn is_set_written(alloc: Global, expected: &[u8]) -> bool {
    let Some(keys) = owned(alloc, &["z", "a"]) else {
        return false;
    };
    match set_bytes(alloc, keys.as_slice()) {
        Some(bytes) => bytes.as_slice() == expected,
        None => false,
    }
}

#[test]
fn sets_are_written_as_their_table_and_their_keys(rt: HostRuntime) {
    assert!(rt; is_set_written(rt.alloc(), &TWO_KEYS));
}

#[test]
fn own_bytes_are_written_or_refused(rt: HostRuntime) {
    let none = IndexMapResolver {
        table: HashTableResolver::from_pos(None),
        entries: None,
    };
    // the offset to the entries does not fit
    let far = IndexMapResolver {
        table: HashTableResolver::from_pos(Some(0)),
        entries: Some(0x1_0000_0000),
    };
    assert!(rt;
        own_bytes(0, none, &[]) == Ok(NOTHING)
            && own_bytes(1, far, &[0; 64]) == Err(Error::IsizeOverflow)
    );
}

/// Writes the index map of pairs, where each key and each value is written by a closure.
fn write_pairs<K: Serialize<S> + Hash, V: Serialize<S>, S: Writer + Allocator>(
    pairs: &[(K, V)],
    serializer: &mut S,
) -> Result<IndexMapResolver, Error>
    requires room { S.failures serializer.old < 2 ^ 64 - 1 }
    requires state { HasState S.pos S.known serializer.old }
{
    serialize_entries_with_each::<K, V, ByArchive, S, _, _>(
        &ByArchive,
        pairs,
        serializer,
        |key: &K, s: &mut S| -> Result<(K::Resolver, PhantomData<K::Archived>), Error>
            requires room { S.failures s.old < 2 ^ 64 - 1 }
            requires state { HasState S.pos S.known s.old }
            ensures { SerializesBy (λ q. q.0) K.spelling S.Writer key.now s.old s.new result }
        { serialize_element(key, s) },
        |value: &V, s: &mut S| -> Result<(V::Resolver, PhantomData<V::Archived>), Error>
            requires room { S.failures s.old < 2 ^ 64 - 1 }
            requires state { HasState S.pos S.known s.old }
            ensures { SerializesBy (λ q. q.0) V.spelling S.Writer value.now s.old s.new result }
        { serialize_element(value, s) },
    )
}

/// Returns texts, each with its number, where the first has the number `first`.
pub(crate) fn numbered(alloc: Global, texts: &[&str], first: u32) -> Option<Vec<(String, u32)>> {
    let mut pairs = Vec::new(alloc);
    let mut number = first;
    for &key in texts {
        if pairs.push((text(alloc, key)?, number)).is_err() {
            return None;
        }
        number = u32::wrapping_add(number, 1);
    }
    Some(pairs)
}

/// Returns the archive of the index map of pairs, and the resolver.
pub(crate) fn map_bytes(
    alloc: Global,
    pairs: &[(String, u32)],
) -> Option<(Vec<u8>, IndexMapResolver)> {
    let mut serializer = memory(alloc);
    let Ok(resolver) = write_pairs(pairs, &mut serializer) else {
        return None;
    };
    let mut bytes = serializer.into_writer();
    let Ok(own) = own_bytes(pairs.len(), resolver, bytes.as_slice()) else {
        return None;
    };
    if bytes.extend_from_slice(&own).is_err() {
        return None;
    }
    Some((bytes, resolver))
}

/// Returns whether the map from z to 1 and from a to 2, in this order, is written as these bytes, with its controls and
/// its entries at these positions.
fn are_pairs_written(alloc: Global, expected: &[u8], controls: usize, entries: usize) -> bool {
    let Some(pairs) = numbered(alloc, &["z", "a"], 1) else {
        return false;
    };
    match map_bytes(alloc, pairs.as_slice()) {
        Some((bytes, resolver)) => {
            bytes.as_slice() == expected
                && (resolver.table.pos, resolver.entries) == (Some(controls), Some(entries))
        }
        None => false,
    }
}

#[test]
fn maps_are_written_as_their_table_and_their_entries(rt: HostRuntime) {
    assert!(rt;
        is_map_written(rt.alloc(), &EXCHANGED) && are_pairs_written(rt.alloc(), &TWO, 12, 44)
    );
}
