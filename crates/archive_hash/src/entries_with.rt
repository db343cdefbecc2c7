//! Writes the entries of an ordered map of std as a hash table, where the values need not be archived by `Archive`.
ghost use Rattle.std.specs.Prelude.{◌≡◌, ◌-◌, ◌^◌, ◌<◌, length, map};
ghost use Rattle.std.specs.Map.Iter.{TakesFirst, deref_pair};
ghost use Rattle.archive_forms_laws.specs.Serializing.{HasState};
ghost use Rattle.archive_forms_writing.specs.Steps.{StepTakes, StepWrites};
ghost use Rattle.archive_hash.specs.Given.{TakesGiven};
ghost use Rattle.archive_hash.specs.Calls.Owned.{SerializesEntries};

use crate::entries::serialize_entries_scan_each;
use crate::map::LOAD_FACTOR;
use archive_forms_writing::{Archive, ArchiveWith, EntryParts, EntryStep};
use archive_hash_maps::HashTableResolver;
use archive_hash_probing::Group;
use archive_shape::{Allocator, Error, Writer};
use std::collections::BTreeMap;
use std::collections::btree_map::Iter;
use std::hash::Hash;
use std::marker::PhantomData;

/// Writes the hash table of the entries of an ordered map that are left, whose data `step` writes. The values are
/// archived by `with`.
fn serialize_ordered_rest_each<
    'a,
    K: Archive + Hash + 'a,
    V: 'a,
    A: ArchiveWith<V>,
    S: Writer + Allocator,
    C: EntryStep<K, V, A, S>,
>(
    with: &A,
    len: usize,
    pairs: Iter<'a, K, V>,
    serializer: &mut S,
    step: &C,
) -> Result<HashTableResolver, Error>
    requires counted { len ≡ length pairs }
    requires room { S.failures serializer.old < 2 ^ 64 - 1 }
    requires state { HasState S.pos S.known serializer.old }
    requires takes { TakesGiven (TakesFirst deref_pair) (C.takes step.now) with.now pairs }
    ensures { SerializesEntries K.Hash K.Archived.shape A.Archived.shape K.spelling (A.spelling with.now)
        S.Writer pairs.entry serializer.old serializer.new result }
{
    serialize_entries_scan_each::<Group, K, V, A, S, _, C>(
        with,
        len,
        pairs,
        LOAD_FACTOR,
        serializer,
        step,
    )
}

/// Writes the hash table of the entries of a map, in the order of their keys: by ascending place, the data of each key
/// by one step, and behind it that of its value by another. The values are archived by `with`. The steps are closures,
/// so that a function in a cycle of calls can pass steps that call functions of the cycle.
pub fn serialize_entries_with_each<
    K: Archive + Ord + Hash,
    V,
    A: ArchiveWith<V>,
    S: Writer + Allocator,
    F: Fn(&K, &mut S) -> Result<(K::Resolver, PhantomData<K::Archived>), Error>,
    G: Fn(&V, &mut S) -> Result<(A::Resolver, PhantomData<A::Archived>), Error>,
>(
    with: &A,
    entries: &BTreeMap<K, V>,
    serializer: &mut S,
    key_step: F,
    value_step: G,
) -> Result<HashTableResolver, Error>
    requires room { S.failures serializer.old < 2 ^ 64 - 1 }
    requires state { HasState S.pos S.known serializer.old }
    requires takes_key { StepTakes F.Fn S.Writer key_step (map (λ e. e.0) entries.now.entries) }
    requires writes_key { StepWrites F.Fn (λ q. q.0) K.spelling S.Writer key_step }
    requires takes_value { StepTakes G.Fn S.Writer value_step (map (λ e. e.1) entries.now.entries) }
    requires writes_value { StepWrites G.Fn (λ q. q.0) (A.spelling with.now) S.Writer value_step }
    ensures { SerializesEntries K.Hash K.Archived.shape A.Archived.shape K.spelling (A.spelling with.now)
        S.Writer entries.now.entries serializer.old serializer.new result }
{
    let step = EntryParts {
        key: key_step,
        value: value_step,
    };
    serialize_ordered_rest_each::<K, V, A, S, EntryParts<F, G>>(
        with,
        entries.len(),
        entries.iter(),
        serializer,
        &step,
    )
}
