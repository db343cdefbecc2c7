//! Tests of writing maps, and entries that come in order.
ghost use Rattle.std.specs.Prelude.{◌-◌, ◌^◌, ◌<◌};
ghost use Rattle.archive_forms_laws.specs.Serializing.{HasState, SerializesBy};

use crate::archives::{EMPTY, ONE_PAIR, SIX_PAIRS, root_of};
use crate::sets::{FOUR, NONE, SIX};
use archive_btree::{
    ArchivedBTreeSet, BTreeMapResolver, BTreeSetResolver, EntryParts, OwnedBTreeMap, OwnedBTreeSet,
    serialize_from_ordered_iter, serialize_map_each, serialize_set_from_ordered_iter,
};
use archive_core_serializing::Serializer;
use archive_forms::Deserialize;
use archive_forms_writing::{Serialize, serialize_element, serialize_using};
use archive_shape::{Allocator, ArchivedU32, Error, Positional, Registry, Writer};
use std::alloc::Global;
use std::collections::{BTreeMap, BTreeSet};
use std::marker::PhantomData;

/// A serializer into memory that grows.
pub(crate) type Memory = Serializer<Vec<u8>, Global, ()>;

/// Returns a serializer into memory that is empty.
fn memory(alloc: Global) -> Memory
    ensures room { ⟦<Memory as Writer>⟧.failures result < 2 ^ 64 - 1 }
    ensures state { HasState ⟦<Memory as Positional>⟧.pos ⟦<Memory as Registry>⟧.known result }
{
    Serializer::new(Vec::new(alloc), alloc, ())
}

/// Returns the archive of a value, or `None` if it cannot be written.
pub(crate) fn archive_of<T: Serialize<Memory>>(alloc: Global, value: &T) -> Option<Vec<u8>> {
    let mut serializer = memory(alloc);
    if serialize_using(value, &mut serializer).is_err() {
        return None;
    }
    Some(serializer.into_writer())
}

/// Returns the map from keys to values, or `None` if memory runs out.
pub(crate) fn numbers(
    alloc: Global,
    keys: &[u32],
    values: &[u32],
) -> Option<OwnedBTreeMap<u32, u32, 5>> {
    let mut map = BTreeMap::new(alloc);
    for (key, value) in keys.iter().zip(values) {
        if map.insert(*key, *value).is_err() {
            return None;
        }
    }
    Some(OwnedBTreeMap { map })
}

/// Returns a set of numbers, or `None` if memory runs out.
pub(crate) fn set_of(alloc: Global, keys: &[u32]) -> Option<OwnedBTreeSet<u32, 5>> {
    let mut set = BTreeSet::new(alloc);
    for key in keys {
        if set.insert(*key).is_err() {
            return None;
        }
    }
    Some(OwnedBTreeSet { set })
}

/// Checks whether the archive of a map of numbers has these bytes.
fn is_map_of(alloc: Global, keys: &[u32], values: &[u32], bytes: &[u8]) -> bool {
    let Some(owned) = numbers(alloc, keys, values) else {
        return false;
    };
    match archive_of(alloc, &owned) {
        Some(written) => written.as_slice() == bytes,
        None => false,
    }
}

#[test]
fn maps_are_written_as_packed_trees(rt: HostRuntime) {
    let alloc = rt.alloc();
    let (keys, values) = ([1, 2, 3, 4, 5, 6], [11, 12, 13, 14, 15, 16]);
    assert!(rt;
        is_map_of(alloc, &[], &[], EMPTY)
            && is_map_of(alloc, &[7], &[11], ONE_PAIR)
            && is_map_of(alloc, &keys, &values, SIX_PAIRS)
    );
}

/// Writes the entries of a map, of which `claimed` are claimed to come.
fn write_claimed<S: Writer + Allocator>(
    claimed: usize,
    owned: &OwnedBTreeMap<u32, u32, 5>,
    serializer: &mut S,
) -> Result<BTreeMapResolver, Error>
    requires room { S.failures serializer.old < 2 ^ 64 - 1 }
    requires state { HasState S.pos S.known serializer.old }
{
    serialize_from_ordered_iter::<S, u32, u32, _, 5>(claimed, owned.map.iter(), serializer)
}

/// Returns the result of writing the map from the first `actual` of 1 to 3 to 11 to 13, of which `claimed` are claimed
/// to come.
fn claiming(alloc: Global, claimed: usize, actual: usize) -> Result<BTreeMapResolver, Error> {
    let keys = [1, 2, 3];
    let keys = keys.get(..actual).unwrap_or(&[]);
    match numbers(alloc, keys, &[11, 12, 13]) {
        Some(owned) => write_claimed(claimed, &owned, &mut memory(alloc)),
        None => Err(Error::OutOfMemory),
    }
}

#[test]
fn wrong_claims_are_refused_with_both_numbers(rt: HostRuntime) {
    for (expected, actual) in [(3, 2), (0, 1), (1, 3)] {
        assert!(rt;
            claiming(rt.alloc(), expected, actual)
                == Err(Error::IteratorLengthMismatch { expected, actual })
        );
    }
    let resolver = BTreeMapResolver::from_pos(Some(0));
    assert!(rt; claiming(rt.alloc(), 2, 2) == Ok(resolver));
}

/// Returns the number of bytes of the archive of a map of `count` numbers in decimal, each of which leads to three
/// words of eight bytes.
fn size_of_decimals(alloc: Global, count: u64) -> Option<usize> {
    let mut map = BTreeMap::new(alloc);
    for i in 0..count {
        let key = format!(in alloc; "{i}").ok()?;
        if map.insert(key, [i, 0, 0]).is_err() {
            return None;
        }
    }
    let owned: OwnedBTreeMap<String, [u64; 3], 5> = OwnedBTreeMap { map };
    match archive_of(alloc, &owned) {
        Some(bytes) => Some(bytes.len()),
        None => None,
    }
}

/// Numbers of entries, and the numbers of bytes of their archives.
const SIZES: [(u64, usize); 9] = [
    (0, 8),
    (1, 184),
    (5, 184),
    (6, 376),
    (17, 728),
    (35, 1256),
    (36, 1448),
    (112, 4120),
    (215, 7688),
];

#[test]
fn leaves_and_inner_nodes_are_as_many_as_a_packed_tree_has(rt: HostRuntime) {
    for &(count, size) in &SIZES {
        assert!(rt; size_of_decimals(rt.alloc(), count) == Some(size));
    }
}

/// Checks whether the archive of a set of numbers has these bytes.
fn is_set_of(alloc: Global, owned: &OwnedBTreeSet<u32, 5>, bytes: &[u8]) -> bool {
    match archive_of(alloc, owned) {
        Some(written) => written.as_slice() == bytes,
        None => false,
    }
}

/// Checks whether a set of numbers is read back of bytes.
fn is_read_back(alloc: Global, owned: &OwnedBTreeSet<u32, 5>, bytes: &[u8]) -> bool {
    let Some(root) = root_of::<ArchivedBTreeSet<ArchivedU32, 5>>(alloc, bytes) else {
        return false;
    };
    let read: Result<OwnedBTreeSet<u32, 5>, Error> = ArchivedBTreeSet::deserialize(
        &root,
        alloc,
        &mut (),
    );
    match read {
        Ok(read) => read.set == owned.set,
        Err(_) => false,
    }
}

/// Checks whether a set of numbers is written as bytes and read back of them.
fn is_set_at(alloc: Global, keys: &[u32], bytes: &[u8]) -> bool {
    match set_of(alloc, keys) {
        Some(owned) => is_set_of(alloc, &owned, bytes) && is_read_back(alloc, &owned, bytes),
        None => false,
    }
}

#[test]
fn sets_are_written_without_bytes_for_values_and_read_back(rt: HostRuntime) {
    let alloc = rt.alloc();
    assert!(rt;
        is_set_at(alloc, &[], NONE)
            && is_set_at(alloc, &[80, 10, 40, 20], FOUR)
            && is_set_at(alloc, &[1, 2, 3, 4, 5, 6], SIX)
    );
}

/// Writes a map by a step for its keys and one for its values.
fn write_by_parts<S: Writer + Allocator, K: Serialize<S> + Ord, V: Serialize<S>>(
    map: &OwnedBTreeMap<K, V, 5>,
    serializer: &mut S,
) -> Result<BTreeMapResolver, Error>
    requires room { S.failures serializer.old < 2 ^ 64 - 1 }
    requires state { HasState S.pos S.known serializer.old }
{
    let step = EntryParts {
        key: |item: &K, s: &mut S| -> Result<(K::Resolver, PhantomData<K::Archived>), Error>
            requires room { S.failures s.old < 2 ^ 64 - 1 }
            requires state { HasState S.pos S.known s.old }
            ensures { SerializesBy (λ q. q.0) K.spelling S.Writer item.now s.old s.new result }
        { serialize_element(item, s) },
        value: |item: &V, s: &mut S| -> Result<(V::Resolver, PhantomData<V::Archived>), Error>
            requires room { S.failures s.old < 2 ^ 64 - 1 }
            requires state { HasState S.pos S.known s.old }
            ensures { SerializesBy (λ q. q.0) V.spelling S.Writer item.now s.old s.new result }
        { serialize_element(item, s) },
    };
    serialize_map_each::<K, V, S, _, 5>(map, serializer, &step)
}

/// Checks whether the map from 7 to 11 is written by parts, as a leaf at position 0 of 48 bytes.
fn is_written_by_parts(alloc: Global) -> bool {
    let Some(map) = numbers(alloc, &[7], &[11]) else {
        return false;
    };
    let mut serializer = memory(alloc);
    write_by_parts(&map, &mut serializer) == Ok(BTreeMapResolver::from_pos(Some(0)))
        && serializer.into_writer().len() == 48
}

#[test]
fn steps_of_keys_and_of_values_write_the_same(rt: HostRuntime) {
    assert!(rt; is_written_by_parts(rt.alloc()));
}

/// Writes the keys of a set, of which `claimed` are claimed to come.
fn write_claimed_keys<S: Writer + Allocator>(
    claimed: usize,
    owned: &OwnedBTreeSet<u32, 5>,
    serializer: &mut S,
) -> Result<BTreeSetResolver, Error>
    requires room { S.failures serializer.old < 2 ^ 64 - 1 }
    requires state { HasState S.pos S.known serializer.old }
{
    serialize_set_from_ordered_iter::<S, u32, _, 5>(claimed, owned.set.iter(), serializer)
}

/// Returns the result of writing the set of 1 to 6, of which `claimed` are claimed to come.
fn claiming_keys(alloc: Global, claimed: usize) -> Result<BTreeSetResolver, Error> {
    match set_of(alloc, &[1, 2, 3, 4, 5, 6]) {
        Some(owned) => write_claimed_keys(claimed, &owned, &mut memory(alloc)),
        None => Err(Error::OutOfMemory),
    }
}

#[test]
fn keys_in_order_are_written_where_as_many_come_as_are_claimed(rt: HostRuntime) {
    let (expected, actual) = (5, 6);
    let rows = [
        (6, Ok(BTreeSetResolver::from_pos(Some(28)))),
        (5, Err(Error::IteratorLengthMismatch { expected, actual })),
    ];
    for (claimed, result) in rows {
        assert!(rt; claiming_keys(rt.alloc(), claimed) == result);
    }
}
