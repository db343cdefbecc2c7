//! Writes tables of the entries that an iterator returns.
ghost use Rattle.std.specs.Prelude.{◌≡◌, ◌-◌, ◌^◌, ◌<◌};
ghost use Rattle.std.specs.Iterator.{IsFinite};
ghost use Rattle.std.specs.Option.{option_map};
ghost use Rattle.archive_forms_laws.specs.Serializing.{HasState};
ghost use Rattle.archive_hash_probing.specs.Inputs.{input_hash};
ghost use Rattle.archive_hash.specs.Given.{TakesGiven, entry_of, pair_of};
ghost use Rattle.archive_hash.specs.Calls.Entries.{SerializesEntry, WritesGiven};

use crate::entry_with::EntryWith;
use archive_forms_values::Entry;
use archive_forms_writing::{Archive, ArchiveWith, EntryAdapter, EntryResolver, EntryStep};
use archive_hash_maps::HashTableResolver;
use archive_hash_probing::{Scan, hash_key};
use archive_hash_writing::serialize_from_iter_scan_with_each;
use archive_shape::{Allocator, Error, Writer};
use std::hash::Hash;
use std::marker::PhantomData;

/// An iterator over entries, made of the keys and values that another iterator returns.
#[derive(Drop)]
pub struct Entries<'a, K, V, I> {
    pub pairs: I,
    pub of: PhantomData<(&'a K, &'a V)>,
}

impl<'a, K: 'a, V: 'a, I: Iterator<Item = (&'a K, &'a V)>> Iterator for Entries<'a, K, V, I> {
    type Item = EntryAdapter<'a, K, V>;

    ghost can_next = { λ s. I.can_next s.pairs };

    ghost next_gives = { λ s r t. I.next_gives s.pairs (option_map pair_of r) t.pairs };

    ghost remaining = { λ s. I.remaining s.pairs };

    fn next(&mut self) -> Option<EntryAdapter<'a, K, V>> {
        match self.pairs.next() {
            Some((key, value)) => Some(EntryAdapter::new(key, value)),
            None => None,
        }
    }

    fn size_hint(&self) -> (usize, Option<usize>) {
        self.pairs.size_hint()
    }
}

/// Writes the data of an entry, whose value is archived by `with`, by a step.
fn serialize_by_step<
    K: Archive,
    V,
    A: ArchiveWith<V>,
    S: Writer + Allocator,
    C: EntryStep<K, V, A, S>,
>(
    with: &A,
    entry: &EntryAdapter<'_, K, V>,
    serializer: &mut S,
    step: &C,
) -> Result<
    (
        EntryResolver<K::Resolver, A::Resolver>,
        PhantomData<Entry<K::Archived, A::Archived>>,
    ),
    Error,
>
    requires taken { C.takes step.now with.now (entry_of entry.now) }
    requires room { S.failures serializer.old < 2 ^ 64 - 1 }
    requires state { HasState S.pos S.known serializer.old }
    ensures { SerializesEntry K.Archived.shape K.spelling A.Archived.shape (A.spelling with.now)
        S.Writer entry.now serializer.old serializer.new result }
{
    let (key, value) = step.serialize_entry(with, entry.key, entry.value, serializer)?;
    Ok((EntryResolver { key, value }, PhantomData))
}

/// Writes the table of the entries of a map that an iterator returns, by the hashes of their keys. Their data is
/// written by `step`, by ascending place. The values are archived by `with`.
pub(crate) fn serialize_entries_scan_each<
    'a,
    G: Scan,
    K: Archive + Hash + 'a,
    V: 'a,
    A: ArchiveWith<V>,
    S: Writer + Allocator,
    I: Iterator<Item = (&'a K, &'a V)>,
    C: EntryStep<K, V, A, S>,
>(
    with: &A,
    len: usize,
    pairs: I,
    load_factor: (usize, usize),
    serializer: &mut S,
    step: &C,
) -> Result<HashTableResolver, Error>
    requires calls { I.can_next pairs × IsFinite (I.remaining pairs) }
    requires room { S.failures serializer.old < 2 ^ 64 - 1 }
    requires state { HasState S.pos S.known serializer.old }
    requires takes { TakesGiven I.next_gives (C.takes step.now) with.now pairs }
    ensures { WritesGiven I.next_gives pairs K.Hash load_factor K.Archived.shape A.Archived.shape K.spelling
        (A.spelling with.now) S.Writer len serializer.old serializer.new result }
{
    let entries = Entries {
        pairs,
        of: PhantomData,
    };
    let by = EntryWith { values: with };
    serialize_from_iter_scan_with_each::<
        G,
        EntryAdapter<'a, K, V>,
        EntryWith<'_, A>,
        S,
        Entries<'a, K, V, I>,
        _,
        _,
    >(
        &by,
        entries,
        len,
        load_factor,
        |entry: &EntryAdapter<K, V>| -> u64
            ensures { result ≡ input_hash (K.hash_input entry.now.key.now) }
        { hash_key(entry.key) },
        serializer,
        |entry: &EntryAdapter<K, V>, s: &mut S| -> Result<
            (
                EntryResolver<K::Resolver, A::Resolver>,
                PhantomData<Entry<K::Archived, A::Archived>>,
            ),
            Error,
        >
            requires taken { C.takes step.now with.now (entry_of entry.now) }
            requires room { S.failures s.old < 2 ^ 64 - 1 }
            requires state { HasState S.pos S.known s.old }
            ensures { SerializesEntry K.Archived.shape K.spelling A.Archived.shape (A.spelling with.entry.now)
                S.Writer entry.now s.old s.new result }
        { serialize_by_step(with, entry, s, step) },
    )
}
