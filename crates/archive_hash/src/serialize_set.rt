//! Writes sets of std as hash tables.
ghost use Rattle.std.specs.Prelude.{◌≡◌, ◌-◌, ◌^◌, ◌<◌, All, length};
ghost use Rattle.std.specs.Iterator.{at_most};
ghost use Rattle.std.specs.Map.Iter.{TakesFirst, deref_pair};
ghost use Rattle.archive_forms_laws.specs.Serializing.{HasState};
ghost use Rattle.archive_hash.specs.Given.{TakesGiven};
ghost use Rattle.archive_hash.specs.Owned.{key_entries};
ghost use Rattle.archive_hash.specs.Calls.Owned.{SerializesKeys, SerializesSet};

use crate::OwnedHashSet;
use crate::entries::serialize_entries_scan_each;
use crate::map::LOAD_FACTOR;
use archive_forms_writing::{Archive, ByArchive, EntryStep, Serialize, SerializeEntry};
use archive_hash_maps::HashTableResolver;
use archive_hash_probing::{Group, Scan};
use archive_shape::{Allocator, Error, Writer};
use std::collections::hash_set::Iter;
use std::hash::Hash;
use std::marker::Model;

/// An iterator over the keys of a set that are left, each with `()` as its value. Its view is a list of entries.
#[derive(Drop)]
struct KeyEntries<'a, K> {
    keys: Iter<'a, K>,
}

impl<'a, K> Model for KeyEntries<'a, K> {
    ghost use Rattle.std.specs.Prelude.{List};
    ghost use Rattle.archive_hash.specs.Owned.{key_entries};

    ghost Value = { List (K × Unit {0}) };

    ghost view = { λ it. key_entries it.keys };
}

impl<'a, K> Iterator for KeyEntries<'a, K> {
    type Item = (&'a K, &'a ());

    ghost next_gives = { TakesFirst deref_pair };

    ghost remaining = { λ s. at_most (length s) };

    fn next(&mut self) -> Option<(&'a K, &'a ())> {
        match self.keys.next() {
            Some(key) => Some((key, &())),
            None => None,
        }
    }

    fn size_hint(&self) -> (usize, Option<usize>) {
        self.keys.size_hint()
    }
}

/// Writes the hash table of the keys of a set that are left, whose data `step` writes.
fn serialize_keys_scan_each<
    'a,
    G: Scan,
    K: Archive + Hash + 'a,
    S: Writer + Allocator,
    C: EntryStep<K, (), ByArchive, S>,
>(
    len: usize,
    entries: KeyEntries<'a, K>,
    serializer: &mut S,
    step: &C,
) -> Result<HashTableResolver, Error>
    requires counted { len ≡ length entries }
    requires room { S.failures serializer.old < 2 ^ 64 - 1 }
    requires state { HasState S.pos S.known serializer.old }
    requires takes { TakesGiven (TakesFirst deref_pair) (C.takes step.now) (record {}) entries }
    ensures { SerializesKeys K.Hash K.Archived.shape K.spelling S.Writer entries.entry serializer.old
        serializer.new result }
{
    serialize_entries_scan_each::<G, K, (), ByArchive, S, _, C>(
        &ByArchive,
        len,
        entries,
        LOAD_FACTOR,
        serializer,
        step,
    )
}

/// Writes the hash table of a set. `step` writes the data of its keys, each with `()` as its value, by ascending place.
/// The scan `G` decides how fast places are found, and not which places.
pub fn serialize_set_scan_each<
    G: Scan,
    K: Archive + Eq + Hash,
    S: Writer + Allocator,
    C: EntryStep<K, (), ByArchive, S>,
>(set: &OwnedHashSet<K>, serializer: &mut S, step: &C) -> Result<HashTableResolver, Error>
    requires room { S.failures serializer.old < 2 ^ 64 - 1 }
    requires state { HasState S.pos S.known serializer.old }
    requires takes { All (C.takes step.now (record {})) (key_entries set.now.set.keys) }
    ensures { SerializesSet K.Hash K.Archived.shape K.spelling S.Writer set.now serializer.old
        serializer.new result }
{
    let entries = KeyEntries {
        keys: set.set.iter(),
    };
    serialize_keys_scan_each::<G, K, S, C>(set.set.len(), entries, serializer, step)
}

/// Writes the hash table of a set, as `serialize_set_scan_each` does, by the widest scan.
pub fn serialize_set_each<
    K: Archive + Eq + Hash,
    S: Writer + Allocator,
    C: EntryStep<K, (), ByArchive, S>,
>(set: &OwnedHashSet<K>, serializer: &mut S, step: &C) -> Result<HashTableResolver, Error>
    requires room { S.failures serializer.old < 2 ^ 64 - 1 }
    requires state { HasState S.pos S.known serializer.old }
    requires takes { All (C.takes step.now (record {})) (key_entries set.now.set.keys) }
    ensures { SerializesSet K.Hash K.Archived.shape K.spelling S.Writer set.now serializer.old
        serializer.new result }
{
    serialize_set_scan_each::<Group, K, S, C>(set, serializer, step)
}

impl<S: Writer + Allocator, K: Serialize<S> + Eq + Hash> Serialize<S> for OwnedHashSet<K> {
    fn serialize(&self, serializer: &mut S) -> Result<HashTableResolver, Error> {
        serialize_set_each::<K, S, SerializeEntry>(self, serializer, &SerializeEntry)
    }
}
