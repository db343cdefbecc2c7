//! Writing nodes with the data of their entries.
ghost use Rattle.std.specs.Prelude.{◌≡◌, ℕ, ◌-◌, ◌^◌, ◌<◌, ◌≤◌, [], ◌∷◌, ◌++◌, All, length, map};
ghost use Rattle.std.specs.Map.Iter.{deref_pair};
ghost use Rattle.archive_forms_laws.specs.Serializing.{HasState};
ghost use Rattle.archive_btree_spelling.specs.Laying.{LaysNode};
ghost use Rattle.archive_btree_writing.specs.Nodes.{leaf_of, inner_of, node_of, AreChildren};

use crate::children::Children;
use crate::nodes::write_behind;
use archive_forms_writing::{Archive, ArchiveWith, EntryStep};
use archive_shape::{Allocator, Error, Writer};

/// The greatest size in bytes of an option of the resolvers of an entry, so that those of a node have fewer than 2^63
/// bytes. A greater size is `OutOfMemory`.
const LARGEST: usize = i32::MAX as usize;

/// Writes a node after the data of its entries, and returns its position. An inner node has children.
fn write_node_each<
    'a,
    K: Archive,
    V,
    A: ArchiveWith<V>,
    S: Writer + Allocator,
    C: EntryStep<K, V, A, S>,
    const E: usize,
>(
    with: &A,
    entries: &[(&'a K, &'a V)],
    children: Option<Children<'_>>,
    serializer: &mut S,
    step: &C,
) -> Result<usize, Error>
    requires some { 0 < length entries.now }
    requires few { length entries.now ≤ E }
    requires small { E < 2 ^ 32 }
    requires whole { AreChildren E children }
    requires taken { All (λ e. C.takes step.now with.now (deref_pair e)) entries.now }
    requires room { S.failures serializer.old < 2 ^ 64 - 1 }
    requires state { HasState S.pos S.known serializer.old }
    ensures { LaysNode E K.Archived.shape A.Archived.shape K.spelling (A.spelling with.now) S.Writer
        (node_of children.entry (map deref_pair entries.now)) serializer.old serializer.new result }
{
    let none: Option<(K::Resolver, A::Resolver)> = None;
    if size_of_val(&none) > LARGEST {
        return Err(Error::OutOfMemory);
    }
    let first = &entries[0];
    let first = step.serialize_entry(with, first.0, first.1, serializer)?;
    let mut kept = [first; E];
    for i in 1..entries.len() {
        let entry = &entries[i];
        kept[i] = step.serialize_entry(with, entry.0, entry.1, serializer)?;
    }
    let kept: &[(K::Resolver, A::Resolver)] = &kept;
    write_behind::<K, V, A, S, E>(with, entries, &kept[..entries.len()], children, serializer)
}

/// Writes a leaf after the data of its entries, which a step writes, and returns its position.
pub fn write_leaf_each<
    'a,
    K: Archive,
    V,
    A: ArchiveWith<V>,
    S: Writer + Allocator,
    C: EntryStep<K, V, A, S>,
    const E: usize,
>(with: &A, entries: &[(&'a K, &'a V)], serializer: &mut S, step: &C) -> Result<usize, Error>
    requires some { 0 < length entries.now }
    requires few { length entries.now ≤ E }
    requires small { E < 2 ^ 32 }
    requires taken { All (λ e. C.takes step.now with.now (deref_pair e)) entries.now }
    requires room { S.failures serializer.old < 2 ^ 64 - 1 }
    requires state { HasState S.pos S.known serializer.old }
    ensures { LaysNode E K.Archived.shape A.Archived.shape K.spelling (A.spelling with.now) S.Writer
        (leaf_of (map deref_pair entries.now)) serializer.old serializer.new result }
{
    write_node_each::<K, V, A, S, C, E>(with, entries, None, serializer, step)
}

/// Writes an inner node after the data of its entries, which a step writes, and returns its position. `lesser` has for
/// each entry the position of the node before it, and `greater` is that of the node after the last entry.
pub fn write_inner_each<
    'a,
    K: Archive,
    V,
    A: ArchiveWith<V>,
    S: Writer + Allocator,
    C: EntryStep<K, V, A, S>,
    const E: usize,
>(
    with: &A,
    entries: &[(&'a K, &'a V)],
    lesser: &[Option<usize>],
    greater: Option<usize>,
    serializer: &mut S,
    step: &C,
) -> Result<usize, Error>
    requires some { 0 < length entries.now }
    requires full { length entries.now ≡ E }
    requires pointers { length lesser.now ≡ E }
    requires small { E < 2 ^ 32 }
    requires taken { All (λ e. C.takes step.now with.now (deref_pair e)) entries.now }
    requires room { S.failures serializer.old < 2 ^ 64 - 1 }
    requires state { HasState S.pos S.known serializer.old }
    ensures { LaysNode E K.Archived.shape A.Archived.shape K.spelling (A.spelling with.now) S.Writer
        (inner_of (lesser.now ++ greater ∷ []) (map deref_pair entries.now))
        serializer.old serializer.new result }
{
    let children = Some(Children { lesser, greater });
    write_node_each::<K, V, A, S, C, E>(with, entries, children, serializer, step)
}
