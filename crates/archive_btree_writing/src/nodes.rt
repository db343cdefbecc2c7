//! Writing nodes after the data of their entries.
ghost use Rattle.std.specs.Prelude.{◌≡◌, ℕ, ◌+◌, ◌-◌, ◌^◌, ◌<◌, ◌≤◌, length, IfOk, MatchResult};
ghost use Rattle.archive_shape_layout.specs.Content.{words_of, link_node_size};
ghost use Rattle.archive_shape.specs.Bytes.{zeros};
ghost use Rattle.archive_shape_layout.specs.declared.error.Error.TheVariants.{PositionTooLarge};
ghost use Rattle.archive_forms_laws.specs.State.{State};
ghost use Rattle.archive_forms_laws.specs.Serializing.{Lays};
ghost use Rattle.archive_forms_laws.specs.Regions.{resolvers};
ghost use Rattle.archive_btree_spelling.specs.Written.{own_size, own_bytes, slots_fit, slots_refused};
ghost use Rattle.archive_btree_maps.specs.Layout.{IsNodeLayout};
ghost use Rattle.archive_btree_writing.specs.Nodes.{borrowed, borrowed_entry, kind_of, node_of, AreChildren, LaysBehind};
ghost use Rattle.archive_forms_values.specs.Claims.{as_usize};

use crate::children::Children;
use crate::entries::{resolve_keys, resolve_values};
use crate::words::store_words;
use archive_btree_maps::nodes::NodeLayout;
use archive_forms_writing::{Archive, ArchiveWith, align};
use archive_shape::{Allocator, Error, Portable, Writer};

/// The greatest position that a node may begin at.
const LAST_POSITION: usize = u32::MAX as usize;

/// The greatest size in bytes of a node that is written without an allocation.
const BUFFER: usize = 256;

/// Returns the first byte of a node: 0 for a leaf, and 1 for an inner node.
fn kind(children: Option<Children<'_>>) -> u8
    ensures { result ≡ kind_of children.entry }
{
    match children {
        None => 0,
        Some(_) => 1,
    }
}

/// Returns the size of a node in bytes. The number stops at `usize::MAX`.
fn node_size<K: Portable, V: Portable, const E: usize>(
    layout: &NodeLayout,
    children: Option<Children<'_>>,
) -> usize
    requires { IsNodeLayout E K.shape V.shape layout.now }
    ensures { result ≡ as_usize (link_node_size
        (words_of (kind_of children.entry) E) E K.shape V.shape) }
{
    match children {
        None => layout.leaf,
        Some(_) => layout.inner,
    }
}

/// Returns `PositionTooLarge` for a node of `size` bytes at a position after the last one, or that ends after
/// `usize::MAX`.
fn check_place(pos: usize, size: usize) -> Result<(), Error>
    ensures { MatchResult result
        (λ _. (pos < 2 ^ 32) × (pos + size < 2 ^ 64))
        (λ e. ((pos < 2 ^ 32) × (pos + size < 2 ^ 64) → ⊥) × (e ≡ PositionTooLarge)) }
{
    if pos > LAST_POSITION {
        return Err(Error::PositionTooLarge);
    }
    match pos.checked_add(size) {
        Some(_) => Ok(()),
        None => Err(Error::PositionTooLarge),
    }
}

/// Writes the node of entries, whose data is written, over zeros, which will lie at `pos`.
fn resolve_node<'a, K: Archive, V, A: ArchiveWith<V>, const E: usize>(
    with: &A,
    entries: &[(&'a K, &'a V)],
    kept: &[(K::Resolver, A::Resolver)],
    children: Option<Children<'_>>,
    layout: NodeLayout,
    pos: usize,
    buffer: &mut [u8],
) -> Result<(), Error>
    requires few { length entries.now ≤ E }
    requires small { E < 2 ^ 32 }
    requires whole { AreChildren E children }
    requires parts { IsNodeLayout E K.Archived.shape A.Archived.shape layout }
    requires made { (st : State) × (kept.now ≡ resolvers
        (borrowed_entry E K.Archived.shape A.Archived.shape K.spelling (A.spelling with.now)) entries.now st) }
    requires blank { buffer.old ≡ zeros (own_size E K.Archived.shape A.Archived.shape
        (borrowed K.spelling) (borrowed (A.spelling with.now)) (node_of children entries.now)) }
    requires stands { pos + own_size E K.Archived.shape A.Archived.shape (borrowed K.spelling)
        (borrowed (A.spelling with.now)) (node_of children entries.now) < 2 ^ 64 }
    ensures { (st : State) → kept.now
        ≡ resolvers (borrowed_entry E K.Archived.shape A.Archived.shape K.spelling (A.spelling with.now))
        entries.now st
        → let n = node_of children.entry entries.now in
        MatchResult result
        (λ _. slots_fit E K.Archived.shape A.Archived.shape (borrowed K.spelling) (borrowed (A.spelling with.now)) n st pos
        × (buffer.new ≡ own_bytes E K.Archived.shape A.Archived.shape (borrowed K.spelling) (borrowed (A.spelling with.now)) n st pos))
        (slots_refused E K.Archived.shape A.Archived.shape (borrowed K.spelling) (borrowed (A.spelling with.now)) n st pos) }
{
    let _len = buffer.len();
    buffer[0] = kind(children);
    resolve_keys::<K, V, A, E>(entries, kept, layout.keys, pos + layout.keys, buffer)?;
    resolve_values::<K, V, A, E>(
        with,
        entries,
        kept,
        layout.values,
        pos + layout.values,
        buffer,
    )?;
    store_words(
        entries.len() as u32,
        children,
        layout.links,
        pos + layout.links,
        buffer,
    )
}

/// Writes the node of entries, whose data is written, through a buffer of zeros of its size.
fn write_through<'a, K: Archive, V, A: ArchiveWith<V>, W: Writer, const E: usize>(
    with: &A,
    entries: &[(&'a K, &'a V)],
    kept: &[(K::Resolver, A::Resolver)],
    children: Option<Children<'_>>,
    layout: NodeLayout,
    writer: &mut W,
    buffer: &mut [u8],
) -> Result<(), Error>
    requires room { W.failures writer.old < 2 ^ 64 - 1 }
    requires few { length entries.now ≤ E }
    requires small { E < 2 ^ 32 }
    requires whole { AreChildren E children }
    requires parts { IsNodeLayout E K.Archived.shape A.Archived.shape layout }
    requires made { (st : State) × (kept.now ≡ resolvers
        (borrowed_entry E K.Archived.shape A.Archived.shape K.spelling (A.spelling with.now)) entries.now st) }
    requires blank { buffer.old ≡ zeros (own_size E K.Archived.shape A.Archived.shape
        (borrowed K.spelling) (borrowed (A.spelling with.now)) (node_of children entries.now)) }
    requires stands { W.pos writer.old + own_size E K.Archived.shape A.Archived.shape
        (borrowed K.spelling) (borrowed (A.spelling with.now)) (node_of children entries.now) < 2 ^ 64 }
    ensures { (st : State) → kept.now
        ≡ resolvers (borrowed_entry E K.Archived.shape A.Archived.shape K.spelling (A.spelling with.now))
        entries.now st
        → let n = node_of children.entry entries.now in
        Lays W.Writer writer.old writer.new (own_bytes E K.Archived.shape A.Archived.shape (borrowed K.spelling) (borrowed (A.spelling with.now)) n st (W.pos writer.old))
        (λ _. slots_fit E K.Archived.shape A.Archived.shape (borrowed K.spelling) (borrowed (A.spelling with.now)) n st (W.pos writer.old))
        (slots_refused E K.Archived.shape A.Archived.shape (borrowed K.spelling) (borrowed (A.spelling with.now)) n st (W.pos writer.old)) result }
{
    let pos = writer.pos();
    resolve_node::<K, V, A, E>(with, entries, kept, children, layout, pos, buffer)?;
    writer.write(buffer)
}

/// Writes the node of entries, whose data is written. The buffer of a node of more than 256 bytes is allocated.
fn write_own<'a, K: Archive, V, A: ArchiveWith<V>, S: Writer + Allocator, const E: usize>(
    with: &A,
    entries: &[(&'a K, &'a V)],
    kept: &[(K::Resolver, A::Resolver)],
    children: Option<Children<'_>>,
    layout: NodeLayout,
    size: usize,
    serializer: &mut S,
) -> Result<(), Error>
    requires room { S.failures serializer.old < 2 ^ 64 - 1 }
    requires few { length entries.now ≤ E }
    requires small { E < 2 ^ 32 }
    requires whole { AreChildren E children }
    requires parts { IsNodeLayout E K.Archived.shape A.Archived.shape layout }
    requires sized { size ≡ as_usize (own_size E K.Archived.shape A.Archived.shape (borrowed K.spelling)
        (borrowed (A.spelling with.now)) (node_of children entries.now)) }
    requires made { (st : State) × (kept.now ≡ resolvers
        (borrowed_entry E K.Archived.shape A.Archived.shape K.spelling (A.spelling with.now)) entries.now st) }
    requires stands { S.pos serializer.old + size < 2 ^ 64 }
    ensures placed { IfOk result (λ _. S.pos serializer.old + link_node_size
        (words_of (kind_of children.entry) E) E K.Archived.shape A.Archived.shape < 2 ^ 64) }
    ensures lays { (st : State) → kept.now
        ≡ resolvers (borrowed_entry E K.Archived.shape A.Archived.shape K.spelling (A.spelling with.now))
        entries.now st
        → let n = node_of children.entry entries.now in
        Lays S.Writer serializer.old serializer.new (own_bytes E K.Archived.shape A.Archived.shape (borrowed K.spelling) (borrowed (A.spelling with.now)) n st (S.pos serializer.old))
        (λ _. slots_fit E K.Archived.shape A.Archived.shape (borrowed K.spelling) (borrowed (A.spelling with.now)) n st (S.pos serializer.old))
        (slots_refused E K.Archived.shape A.Archived.shape (borrowed K.spelling) (borrowed (A.spelling with.now)) n st (S.pos serializer.old)) result }
{
    if size <= BUFFER {
        let mut buffer = [0; BUFFER];
        return write_through::<K, V, A, S, E>(
            with,
            entries,
            kept,
            children,
            layout,
            serializer,
            &mut buffer[..size],
        );
    }
    match vec![in serializer.memory(); 0u8; size] {
        Ok(mut buffer) => write_through::<K, V, A, S, E>(
            with,
            entries,
            kept,
            children,
            layout,
            serializer,
            buffer.as_mut_slice(),
        ),
        Err(_) => Err(Error::OutOfMemory),
    }
}

/// Writes the node of entries, whose data is written, from the next position of its alignment on, and returns its
/// position.
pub fn write_behind<'a, K: Archive, V, A: ArchiveWith<V>, S: Writer + Allocator, const E: usize>(
    with: &A,
    entries: &[(&'a K, &'a V)],
    kept: &[(K::Resolver, A::Resolver)],
    children: Option<Children<'_>>,
    serializer: &mut S,
) -> Result<usize, Error>
    requires room { S.failures serializer.old < 2 ^ 64 - 1 }
    requires few { length entries.now ≤ E }
    requires small { E < 2 ^ 32 }
    requires whole { AreChildren E children }
    requires made { (st : State) × (kept.now ≡ resolvers
        (borrowed_entry E K.Archived.shape A.Archived.shape K.spelling (A.spelling with.now)) entries.now st) }
    ensures { (st : State) → kept.now
        ≡ resolvers (borrowed_entry E K.Archived.shape A.Archived.shape K.spelling (A.spelling with.now))
        entries.now st
        → LaysBehind E K.Archived.shape A.Archived.shape (borrowed K.spelling) (borrowed (A.spelling with.now)) S.Writer (node_of children.entry entries.now) st serializer.old serializer.new (S.pos serializer.old) result }
{
    let layout = NodeLayout::of::<K::Archived, A::Archived, E>();
    let to = align(serializer, layout.link_align)?;
    let size = node_size::<K::Archived, A::Archived, E>(&layout, children);
    check_place(to, size)?;
    write_own::<K, V, A, S, E>(with, entries, kept, children, layout, size, serializer)?;
    Ok(to)
}
