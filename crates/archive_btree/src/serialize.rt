//! Writing maps of std as search trees.
ghost use Rattle.std.specs.Prelude.{◌≡◌, ◌-◌, ◌^◌, ◌<◌, All, length};
ghost use Rattle.std.specs.Map.Iter.{TakesFirst, deref_pair};
ghost use Rattle.archive_forms_laws.specs.Forms.{seen_as};
ghost use Rattle.archive_forms_laws.specs.Serializing.{HasState, Serializes};
ghost use Rattle.archive_btree.specs.Owned.{TakesEntries, entries_spelling};

use crate::OwnedBTreeMap;
use crate::ordered::serialize_from_ordered_iter_with_each;
use archive_btree_maps::BTreeMapResolver;
use archive_forms_writing::{
    Archive, ArchiveWith, ByArchive, EntryStep, Serialize, SerializeEntry,
};
use archive_shape::{Allocator, Error, Writer};
use std::collections::btree_map::Iter;

/// Writes the search tree of the entries of a map that are left, whose data is written by a step. The values are
/// archived by `with`.
pub(crate) fn serialize_rest_each<
    'a,
    K: Archive + 'a,
    V: 'a,
    A: ArchiveWith<V>,
    S: Writer + Allocator,
    C: EntryStep<K, V, A, S>,
    const E: usize,
>(
    with: &A,
    len: usize,
    entries: Iter<'a, K, V>,
    serializer: &mut S,
    step: &C,
) -> Result<BTreeMapResolver, Error>
    requires some { 0 < E }
    requires counted { len ≡ length entries }
    requires room { S.failures serializer.old < 2 ^ 64 - 1 }
    requires state { HasState S.pos S.known serializer.old }
    requires takes { TakesEntries (TakesFirst deref_pair) (C.takes step.now) with.now entries }
    ensures { Serializes (entries_spelling E K.Archived.shape A.Archived.shape K.spelling (A.spelling with.now))
        S.Writer entries.entry serializer.old serializer.new result }
{
    serialize_from_ordered_iter_with_each::<K, V, A, S, C, _, E>(
        with, len, entries, serializer, step,
    )
}

/// Writes the search tree of a map, the data of whose entries is written by a step. An empty map has no tree.
pub fn serialize_map_each<
    K: Archive + Ord,
    V: Archive,
    S: Writer + Allocator,
    C: EntryStep<K, V, ByArchive, S>,
    const E: usize,
>(map: &OwnedBTreeMap<K, V, E>, serializer: &mut S, step: &C) -> Result<BTreeMapResolver, Error>
    requires room { S.failures serializer.old < 2 ^ 64 - 1 }
    requires state { HasState S.pos S.known serializer.old }
    requires takes { All (C.takes step.now (record {})) map.now.map.entries }
    ensures { Serializes (seen_as (λ m. m.map.entries)
        (entries_spelling E K.Archived.shape V.Archived.shape K.spelling V.spelling)) S.Writer map.now
        serializer.old serializer.new result }
{
    if map.map.is_empty() {
        return Ok(BTreeMapResolver::from_pos(None));
    }
    serialize_rest_each::<K, V, ByArchive, S, C, E>(
        &ByArchive,
        map.map.len(),
        map.map.iter(),
        serializer,
        step,
    )
}

impl<S: Writer + Allocator, K: Serialize<S> + Ord, V: Serialize<S>, const E: usize> Serialize<S>
    for OwnedBTreeMap<K, V, E> {
    fn serialize(&self, serializer: &mut S) -> Result<BTreeMapResolver, Error> {
        serialize_map_each::<K, V, S, SerializeEntry, E>(self, serializer, &SerializeEntry)
    }
}
