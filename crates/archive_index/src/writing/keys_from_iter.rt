//! Writes index sets of the keys that an iterator returns.
ghost use Rattle.std.specs.Prelude.{◌≡◌, ◌-◌, ◌^◌, ◌<◌};
ghost use Rattle.std.specs.Iterator.{IsFinite, IsFiniteIterable};
ghost use Rattle.archive_forms_laws.specs.Serializing.{HasState};
ghost use Rattle.archive_hash_probing.specs.Inputs.{input_hash};
ghost use Rattle.archive_index.specs.Calls.Writing.{WritesGivenSet, WritesCollectedSet};
ghost use Rattle.archive_hash.specs.Calls.Entries.{SerializesKey};

use crate::set::ArchivedIndexSet;
use crate::writing::iterators::serialize_from_iter_scan_each;
use archive_forms_values::Entry;
use archive_forms_writing::{Archive, EntryAdapter, EntryResolver, Serialize, serialize_element};
use archive_hash::KeysBesideUnits;
use archive_hash_probing::{Group, hash_key};
use archive_hash_writing::index::IndexMapResolver;
use archive_shape::{Allocator, Error, Portable, Writer};
use std::hash::Hash;
use std::marker::PhantomData;

/// Writes the index map of the keys that are left to `()`.
pub(crate) fn serialize_given_keys<
    'a,
    S: Writer + Allocator,
    K: Serialize<S> + Hash + 'a,
    J: Iterator<Item = &'a K>,
>(
    len: usize,
    keys: J,
    load_factor: (usize, usize),
    serializer: &mut S,
) -> Result<IndexMapResolver, Error>
    requires calls { J.can_next keys × IsFinite (J.remaining keys) }
    requires room { S.failures serializer.old < 2 ^ 64 - 1 }
    requires state { HasState S.pos S.known serializer.old }
    ensures { WritesGivenSet J.next_gives keys K.Hash load_factor K.Archived.shape K.spelling
        S.Writer len serializer.old serializer.new result }
{
    let entries = KeysBesideUnits {
        keys,
        of: PhantomData,
    };
    serialize_from_iter_scan_each::<
        Group,
        EntryAdapter<'a, K, ()>,
        S,
        KeysBesideUnits<'a, K, J>,
        _,
        _,
    >(
        entries,
        len,
        load_factor,
        |entry: &EntryAdapter<K, ()>| -> u64
            ensures { result ≡ input_hash (K.hash_input entry.now.key.now) }
        { hash_key(entry.key) },
        serializer,
        |entry: &EntryAdapter<K, ()>, s: &mut S| -> Result<
            (
                EntryResolver<K::Resolver, ()>,
                PhantomData<Entry<K::Archived, ()>>,
            ),
            Error,
        >
            requires room { S.failures s.old < 2 ^ 64 - 1 }
            requires state { HasState S.pos S.known s.old }
            ensures { SerializesKey K.Archived.shape K.spelling S.Writer entry.now s.old s.new result }
        { serialize_element(entry, s) },
    )
}

impl<K: Portable, H> ArchivedIndexSet<K, H> {
    /// Writes the index set of the keys that an iterator returns, as [`ArchivedIndexMap::serialize_from_iter`] writes
    /// entries whose values are `()`. The resolver is that of the map of the keys to `()`.
    ///
    /// # Errors
    /// The errors of `ArchivedIndexMap::serialize_from_iter`.
    pub fn serialize_from_iter<
        'a,
        S: Writer + Allocator,
        A: Archive<Archived = K> + Serialize<S> + Hash + 'a,
        I: IntoIterator<Item = &'a A>,
    >(
        len: usize,
        keys: I,
        load_factor: (usize, usize),
        serializer: &mut S,
    ) -> Result<IndexMapResolver, Error>
        requires room { S.failures serializer.old < 2 ^ 64 - 1 }
        requires state { HasState S.pos S.known serializer.old }
        requires ends { IsFiniteIterable I.into_iter_gives I.IntoIter.can_next I.IntoIter.remaining keys }
        ensures { WritesCollectedSet I.into_iter_gives I.IntoIter.next_gives keys A.Hash load_factor
            K.shape A.spelling S.Writer len serializer.old serializer.new result }
    {
        let keys = keys.into_iter();
        serialize_given_keys::<S, A, I::IntoIter>(len, keys, load_factor, serializer)
    }
}
