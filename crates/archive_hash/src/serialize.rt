//! Writes maps of std as hash tables.
ghost use Rattle.std.specs.Prelude.{◌≡◌, ◌-◌, ◌^◌, ◌<◌, All, length};
ghost use Rattle.std.specs.Map.Iter.{TakesFirst, deref_pair};
ghost use Rattle.archive_forms_laws.specs.Serializing.{HasState};
ghost use Rattle.archive_hash.specs.Given.{TakesGiven};
ghost use Rattle.archive_hash.specs.Calls.Owned.{SerializesEntries, SerializesMap};

use crate::entries::serialize_entries_scan_each;
use crate::map::{LOAD_FACTOR, OwnedHashMap};
use archive_forms_writing::{Archive, ByArchive, EntryStep, Serialize, SerializeEntry};
use archive_hash_maps::HashTableResolver;
use archive_hash_probing::{Group, Scan};
use archive_shape::{Allocator, Error, Writer};
use std::collections::hash_map::Iter;
use std::hash::Hash;

/// Writes the hash table of the entries of a map that are left, whose data `step` writes.
fn serialize_rest_scan_each<
    'a,
    G: Scan,
    K: Archive + Hash + 'a,
    V: Archive + 'a,
    S: Writer + Allocator,
    C: EntryStep<K, V, ByArchive, S>,
>(
    len: usize,
    pairs: Iter<'a, K, V>,
    serializer: &mut S,
    step: &C,
) -> Result<HashTableResolver, Error>
    requires counted { len ≡ length pairs }
    requires room { S.failures serializer.old < 2 ^ 64 - 1 }
    requires state { HasState S.pos S.known serializer.old }
    requires takes { TakesGiven (TakesFirst deref_pair) (C.takes step.now) (record {}) pairs }
    ensures { SerializesEntries K.Hash K.Archived.shape V.Archived.shape K.spelling V.spelling S.Writer pairs.entry
        serializer.old serializer.new result }
{
    serialize_entries_scan_each::<G, K, V, ByArchive, S, _, C>(
        &ByArchive,
        len,
        pairs,
        LOAD_FACTOR,
        serializer,
        step,
    )
}

/// Writes the hash table of a map. `step` writes the data of its entries, by ascending place. The scan `G` decides how
/// fast places are found, and not which places.
pub fn serialize_map_scan_each<
    G: Scan,
    K: Archive + Eq + Hash,
    V: Archive,
    S: Writer + Allocator,
    C: EntryStep<K, V, ByArchive, S>,
>(map: &OwnedHashMap<K, V>, serializer: &mut S, step: &C) -> Result<HashTableResolver, Error>
    requires room { S.failures serializer.old < 2 ^ 64 - 1 }
    requires state { HasState S.pos S.known serializer.old }
    requires takes { All (C.takes step.now (record {})) map.now.map.entries }
    ensures { SerializesMap K.Hash K.Archived.shape V.Archived.shape K.spelling V.spelling S.Writer map.now
        serializer.old serializer.new result }
{
    serialize_rest_scan_each::<G, K, V, S, C>(map.map.len(), map.map.iter(), serializer, step)
}

/// Writes the hash table of a map, as `serialize_map_scan_each` does, by the widest scan.
pub fn serialize_map_each<
    K: Archive + Eq + Hash,
    V: Archive,
    S: Writer + Allocator,
    C: EntryStep<K, V, ByArchive, S>,
>(map: &OwnedHashMap<K, V>, serializer: &mut S, step: &C) -> Result<HashTableResolver, Error>
    requires room { S.failures serializer.old < 2 ^ 64 - 1 }
    requires state { HasState S.pos S.known serializer.old }
    requires takes { All (C.takes step.now (record {})) map.now.map.entries }
    ensures { SerializesMap K.Hash K.Archived.shape V.Archived.shape K.spelling V.spelling S.Writer map.now
        serializer.old serializer.new result }
{
    serialize_map_scan_each::<Group, K, V, S, C>(map, serializer, step)
}

impl<S: Writer + Allocator, K: Serialize<S> + Eq + Hash, V: Serialize<S>> Serialize<S>
    for OwnedHashMap<K, V> {
    fn serialize(&self, serializer: &mut S) -> Result<HashTableResolver, Error> {
        serialize_map_each::<K, V, S, SerializeEntry>(self, serializer, &SerializeEntry)
    }
}
