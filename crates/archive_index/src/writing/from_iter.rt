//! Writes index maps of the keys and values that an iterator returns.
ghost use Rattle.std.specs.Prelude.{◌≡◌, ◌-◌, ◌^◌, ◌<◌};
ghost use Rattle.std.specs.Iterator.{IsFinite, IsFiniteIterable};
ghost use Rattle.archive_forms_laws.specs.Serializing.{HasState};
ghost use Rattle.archive_hash_probing.specs.Inputs.{input_hash};
ghost use Rattle.archive_index.specs.Calls.Writing.{WritesGivenMap, WritesCollectedMap};
ghost use Rattle.archive_hash.specs.Calls.Entries.{SerializesEntry};

use crate::map::ArchivedIndexMap;
use crate::writing::iterators::serialize_from_iter_scan_each;
use archive_forms_values::Entry;
use archive_forms_writing::{Archive, EntryAdapter, EntryResolver, Serialize, serialize_element};
use archive_hash::Entries;
use archive_hash_probing::{Group, hash_key};
use archive_hash_writing::index::IndexMapResolver;
use archive_shape::{Allocator, Error, Portable, Writer};
use std::hash::Hash;
use std::marker::PhantomData;

/// Writes the index map of the keys and values that are left.
fn serialize_given_pairs<
    'a,
    S: Writer + Allocator,
    K: Serialize<S> + Hash + 'a,
    V: Serialize<S> + 'a,
    J: Iterator<Item = (&'a K, &'a V)>,
>(
    len: usize,
    pairs: J,
    load_factor: (usize, usize),
    serializer: &mut S,
) -> Result<IndexMapResolver, Error>
    requires calls { J.can_next pairs × IsFinite (J.remaining pairs) }
    requires room { S.failures serializer.old < 2 ^ 64 - 1 }
    requires state { HasState S.pos S.known serializer.old }
    ensures { WritesGivenMap J.next_gives pairs K.Hash load_factor K.Archived.shape V.Archived.shape
        K.spelling V.spelling S.Writer len serializer.old serializer.new result }
{
    let entries = Entries {
        pairs,
        of: PhantomData,
    };
    serialize_from_iter_scan_each::<Group, EntryAdapter<'a, K, V>, S, Entries<'a, K, V, J>, _, _>(
        entries,
        len,
        load_factor,
        |entry: &EntryAdapter<K, V>| -> u64
            ensures { result ≡ input_hash (K.hash_input entry.now.key.now) }
        { hash_key(entry.key) },
        serializer,
        |entry: &EntryAdapter<K, V>, s: &mut S| -> Result<
            (
                EntryResolver<K::Resolver, V::Resolver>,
                PhantomData<Entry<K::Archived, V::Archived>>,
            ),
            Error,
        >
            requires room { S.failures s.old < 2 ^ 64 - 1 }
            requires state { HasState S.pos S.known s.old }
            ensures { SerializesEntry K.Archived.shape K.spelling V.Archived.shape V.spelling
                S.Writer entry.now s.old s.new result }
        { serialize_element(entry, s) },
    )
}

impl<K: Portable, V: Portable, H> ArchivedIndexMap<K, V, H> {
    /// Writes the index map of the entries that an iterator returns, in this order, by the hashes of their keys. `len`
    /// is the number of entries that the caller claims. At most `load_factor.0` of `load_factor.1` places are full.
    /// Memory is allocated for the entries that the iterator returns, and none for those that are only claimed. Keys are
    /// not compared: of equal keys each is written, and the first is found.
    ///
    /// # Errors
    /// The errors of `serialize_from_iter_scan_each`, and each error of writing a key or a value.
    pub fn serialize_from_iter<
        'a,
        S: Writer + Allocator,
        A: Archive<Archived = K> + Serialize<S> + Hash + 'a,
        B: Archive<Archived = V> + Serialize<S> + 'a,
        I: IntoIterator<Item = (&'a A, &'a B)>,
    >(
        len: usize,
        entries: I,
        load_factor: (usize, usize),
        serializer: &mut S,
    ) -> Result<IndexMapResolver, Error>
        requires room { S.failures serializer.old < 2 ^ 64 - 1 }
        requires state { HasState S.pos S.known serializer.old }
        requires ends { IsFiniteIterable I.into_iter_gives I.IntoIter.can_next
            I.IntoIter.remaining entries }
        ensures { WritesCollectedMap I.into_iter_gives I.IntoIter.next_gives entries A.Hash load_factor
            K.shape V.shape A.spelling B.spelling S.Writer len serializer.old serializer.new result }
    {
        let pairs = entries.into_iter();
        serialize_given_pairs::<S, A, B, I::IntoIter>(len, pairs, load_factor, serializer)
    }
}
