//! Writes pairs of a key and a value as an index map, where the values need not be archived by `Archive`.
ghost use Rattle.std.specs.Prelude.{◌≡◌, ◌-◌, ◌^◌, ◌<◌, All, map};
ghost use Rattle.archive_forms_laws.specs.Serializing.{HasState};
ghost use Rattle.archive_forms_writing.specs.Steps.{StepTakes, StepWrites};
ghost use Rattle.archive_hash_probing.specs.Inputs.{input_hash};
ghost use Rattle.archive_index.specs.Calls.Writing.{SerializesPair, SerializesPairs};

use crate::writing::hashed::serialize_hashed_map;
use crate::writing::pair_with::PairWith;
use archive_forms_values::Entry;
use archive_forms_writing::{Archive, ArchiveWith, EntryParts, EntryStep};
use archive_hash::{LOAD_FACTOR, hash_items};
use archive_hash_probing::{Group, hash_key};
use archive_hash_writing::index::IndexMapResolver;
use archive_shape::{Allocator, Error, Writer};
use std::hash::Hash;
use std::marker::PhantomData;

/// Writes the data of a pair, whose value is archived by `with`, by a step.
fn serialize_pair<
    K: Archive,
    V,
    A: ArchiveWith<V>,
    S: Writer + Allocator,
    C: EntryStep<K, V, A, S>,
>(
    with: &A,
    pair: &(K, V),
    serializer: &mut S,
    step: &C,
) -> Result<
    (
        (K::Resolver, A::Resolver),
        PhantomData<Entry<K::Archived, A::Archived>>,
    ),
    Error,
>
    requires taken { C.takes step.now with.now pair.now }
    requires room { S.failures serializer.old < 2 ^ 64 - 1 }
    requires state { HasState S.pos S.known serializer.old }
    ensures { SerializesPair K.Archived.shape K.spelling A.Archived.shape (A.spelling with.now)
        S.Writer pair.now serializer.old serializer.new result }
{
    let done = step.serialize_entry(with, &pair.0, &pair.1, serializer)?;
    Ok((done, PhantomData))
}

/// Writes the index map of pairs, whose data `step` writes. The values are archived by `with`.
pub(crate) fn serialize_pairs_each<
    K: Archive + Hash,
    V,
    A: ArchiveWith<V>,
    S: Writer + Allocator,
    C: EntryStep<K, V, A, S>,
>(with: &A, entries: &[(K, V)], serializer: &mut S, step: &C) -> Result<IndexMapResolver, Error>
    requires room { S.failures serializer.old < 2 ^ 64 - 1 }
    requires state { HasState S.pos S.known serializer.old }
    requires takes { All (C.takes step.now with.now) entries.now }
    ensures { SerializesPairs K.Hash K.Archived.shape A.Archived.shape K.spelling (A.spelling with.now)
        S.Writer entries.now serializer.old serializer.new result }
{
    let hashes = hash_items(
        serializer.memory(),
        entries,
        |pair: &(K, V)| -> u64
            ensures { result ≡ input_hash (K.hash_input pair.now.0) }
        { hash_key(&pair.0) },
    )?;
    let hashes = hashes.as_slice();
    let by = PairWith { values: with };
    serialize_hashed_map::<Group, (K, V), PairWith<'_, A>, S, _>(
        &by,
        entries,
        hashes,
        LOAD_FACTOR,
        serializer,
        |pair: &(K, V), s: &mut S| -> Result<
            (
                (K::Resolver, A::Resolver),
                PhantomData<Entry<K::Archived, A::Archived>>,
            ),
            Error,
        >
            requires taken { C.takes step.now with.now pair.now }
            requires room { S.failures s.old < 2 ^ 64 - 1 }
            requires state { HasState S.pos S.known s.old }
            ensures { SerializesPair K.Archived.shape K.spelling A.Archived.shape (A.spelling with.entry.now)
                S.Writer pair.now s.old s.new result }
        { serialize_pair(with, pair, s, step) },
    )
}

/// Writes the index map of pairs, in their order: the table of their numbers, by the hashes of the keys, and then the
/// entries, after their data, which is that of each key, written by one step, and behind it that of its value, written by
/// another. At most seven of eight places are full. The values are archived by `with`. The steps are closures, so that a
/// function in a cycle of calls can pass steps that call functions of the cycle. Keys are not compared.
pub fn serialize_entries_with_each<
    K: Archive + Hash,
    V,
    A: ArchiveWith<V>,
    S: Writer + Allocator,
    F: Fn(&K, &mut S) -> Result<(K::Resolver, PhantomData<K::Archived>), Error>,
    G: Fn(&V, &mut S) -> Result<(A::Resolver, PhantomData<A::Archived>), Error>,
>(
    with: &A,
    entries: &[(K, V)],
    serializer: &mut S,
    key_step: F,
    value_step: G,
) -> Result<IndexMapResolver, Error>
    requires room { S.failures serializer.old < 2 ^ 64 - 1 }
    requires state { HasState S.pos S.known serializer.old }
    requires takes_key { StepTakes F.Fn S.Writer key_step (map (λ e. e.0) entries.now) }
    requires writes_key { StepWrites F.Fn (λ q. q.0) K.spelling S.Writer key_step }
    requires takes_value { StepTakes G.Fn S.Writer value_step (map (λ e. e.1) entries.now) }
    requires writes_value { StepWrites G.Fn (λ q. q.0) (A.spelling with.now) S.Writer value_step }
    ensures { SerializesPairs K.Hash K.Archived.shape A.Archived.shape K.spelling (A.spelling with.now)
        S.Writer entries.now serializer.old serializer.new result }
{
    let step = EntryParts {
        key: key_step,
        value: value_step,
    };
    serialize_pairs_each::<K, V, A, S, EntryParts<F, G>>(with, entries, serializer, &step)
}
