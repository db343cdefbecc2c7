//! Search trees of entries that come in order.
ghost use Rattle.std.specs.Prelude.{◌≡◌, ℕ, ◌-◌, ◌^◌, ◌<◌, ⊤};
ghost use Rattle.std.specs.Iterator.{IsFinite};
ghost use Rattle.std.specs.Map.Iter.{deref_pair};
ghost use Rattle.archive_forms_laws.specs.Serializing.{HasState};
ghost use Rattle.archive_forms_laws.specs.Taking.{GivesAs};
ghost use Rattle.archive_btree_writing.specs.Built.{BuildsClaimedBy};
ghost use Rattle.archive_btree.specs.Owned.{TakesEntries};

use crate::node_writer::NodeWriter;
use archive_btree_maps::BTreeMapResolver;
use archive_btree_writing::build_tree_each;
use archive_forms_writing::{
    Archive, ArchiveWith, ByArchive, EntryStep, Serialize, SerializeEntry,
};
use archive_shape::{Allocator, Error, Writer};
use std::marker::PhantomData;

/// The greatest number of entries of a node.
pub(crate) const MAX_ENTRIES: usize = u32::MAX as usize;

/// Writes the search tree of the entries of a map, as `serialize_from_ordered_iter_each` does. The values are archived
/// by `with`.
pub(crate) fn serialize_from_ordered_iter_with_each<
    'a,
    K: Archive + 'a,
    V: 'a,
    A: ArchiveWith<V>,
    S: Writer + Allocator,
    C: EntryStep<K, V, A, S>,
    I: Iterator<Item = (&'a K, &'a V)>,
    const E: usize,
>(
    with: &A,
    claimed: usize,
    entries: I,
    serializer: &mut S,
    step: &C,
) -> Result<BTreeMapResolver, Error>
    requires calls { I.can_next entries × IsFinite (I.remaining entries) }
    requires some { 0 < E }
    requires room { S.failures serializer.old < 2 ^ 64 - 1 }
    requires state { HasState S.pos S.known serializer.old }
    requires takes { TakesEntries I.next_gives (C.takes step.now) with.now entries }
    ensures { BuildsClaimedBy E K.Archived.shape A.Archived.shape K.spelling (A.spelling with.now)
        S.Writer (GivesAs deref_pair I.next_gives) (λ r. r.pos) claimed entries
        serializer.old serializer.new result }
{
    if E > MAX_ENTRIES {
        return Err(Error::OutOfMemory);
    }
    let nodes = NodeWriter { with, step };
    let pos = build_tree_each::<(&'a K, &'a V), S, _, I, E>(
        claimed,
        entries,
        serializer,
        &nodes,
        PhantomData,
    )?;
    Ok(BTreeMapResolver { pos })
}

/// Writes the search tree of the entries of a map, which come in order and whose data is written by a step. `claimed`
/// is the number of entries that come.
///
/// # Errors
///
/// - `IteratorLengthMismatch` if fewer entries came, or if more did, which are then counted. What is written for the
///   entries that came remains written.
/// - Any error of the step.
/// - `OutOfMemory` if `E` is 2^32 or more.
pub fn serialize_from_ordered_iter_each<
    'a,
    K: Archive + 'a,
    V: Archive + 'a,
    S: Writer + Allocator,
    C: EntryStep<K, V, ByArchive, S>,
    I: Iterator<Item = (&'a K, &'a V)>,
    const E: usize,
>(claimed: usize, entries: I, serializer: &mut S, step: &C) -> Result<BTreeMapResolver, Error>
    requires calls { I.can_next entries × IsFinite (I.remaining entries) }
    requires some { 0 < E }
    requires room { S.failures serializer.old < 2 ^ 64 - 1 }
    requires state { HasState S.pos S.known serializer.old }
    requires takes { TakesEntries I.next_gives (C.takes step.now) (record {}) entries }
    ensures { BuildsClaimedBy E K.Archived.shape V.Archived.shape K.spelling V.spelling S.Writer
        (GivesAs deref_pair I.next_gives) (λ r. r.pos) claimed entries
        serializer.old serializer.new result }
{
    serialize_from_ordered_iter_with_each::<K, V, ByArchive, S, C, I, E>(
        &ByArchive, claimed, entries, serializer, step,
    )
}

/// Writes the search tree of the entries of a map, which come in order, as `serialize_from_ordered_iter_each` does. The
/// data of the entries is written by `Serialize`.
pub fn serialize_from_ordered_iter<
    'a,
    S: Writer + Allocator,
    K: Serialize<S> + 'a,
    V: Serialize<S> + 'a,
    I: Iterator<Item = (&'a K, &'a V)>,
    const E: usize,
>(claimed: usize, entries: I, serializer: &mut S) -> Result<BTreeMapResolver, Error>
    requires calls { I.can_next entries × IsFinite (I.remaining entries) }
    requires some { 0 < E }
    requires room { S.failures serializer.old < 2 ^ 64 - 1 }
    requires state { HasState S.pos S.known serializer.old }
    ensures { BuildsClaimedBy E K.Archived.shape V.Archived.shape K.spelling V.spelling S.Writer
        (GivesAs deref_pair I.next_gives) (λ r. r.pos) claimed entries
        serializer.old serializer.new result }
{
    serialize_from_ordered_iter_each::<K, V, S, SerializeEntry, I, E>(
        claimed,
        entries,
        serializer,
        &SerializeEntry,
    )
}
