//! What a map lists of a node: the node, and the regions that it leads to, in the order in which they are claimed.
ghost use Rattle.std.specs.Prelude.{◌≡◌, ℕ, ◌+◌, ◌-◌, ◌^◌, ◌<◌, ◌≤◌, length, slice_index, ⊤};
ghost use Rattle.archive_shape_layout.specs.Shape.Shape.{text, option, box, vector};
ghost use Rattle.archive_shape_layout.specs.Shape.Pointee.{sized};
ghost use Rattle.archive_shape_layout.specs.Content.{entries};
ghost use Rattle.archive_shape_layout.specs.Content.Part.{at, node, child, entry};
ghost use Rattle.archive_btree_maps.specs.Layout.{IsLayout};
ghost use Rattle.archive_forms_values.specs.Parts.{HasValue};
ghost use Rattle.cabinet_documents.specs.Denotes.{tagged_value};
ghost use Rattle.cabinet_documents.specs.Node.{node_shape, whole_shape, KnowsNode};
ghost use Rattle.cabinet_archives.specs.Failing.{FailsByWriter};
ghost use Rattle.cabinet_archives.specs.Hashed.{table_shape};
ghost use Rattle.cabinet_archives.specs.Kept.{index_shape};
ghost use Rattle.cabinet_archives.specs.Keyed.{knows_pairs};
ghost use Rattle.cabinet_archives.specs.Loading.{HasTree};
ghost use Rattle.cabinet_archives.specs.Mapped.{Mapped, MappedAll, HasEntries, HasSubtree, HasLink};
ghost use Rattle.cabinet_archives.specs.MapPaths.{path_of};
ghost use Rattle.cabinet_archives.specs.Ordered.{map_shape};
ghost use Rattle.cabinet_archives.specs.declared.mapping.region.RegionKind.{RegionKind};
ghost use Rattle.cabinet_archives.specs.declared.mapping.region.RegionKind.TheVariants as kind;

use crate::mapping::lines::write_region;
use crate::mapping::path::Path;
use crate::mapping::region::RegionKind;
use crate::mapping::tally::Tally;
use crate::mapping::texts::{write_shared, write_table, write_text};
use crate::maps::{HashedMap, KeptMap, OrderedMap};
use archive_btree_maps::nodes::{NO_CHILD, NodeLayout};
use archive_btree_maps::walking::count_at;
use archive_forms_rc::{ArchivedRc, RcFlavor};
use archive_forms_values::{
    ArchivedBox, ArchivedOption, ArchivedString, ArchivedVec, Entry, read_word, target_of,
};
use archive_shape::{ArchivedU32, Portable, Ref};
use archive_shape_layout::{Error, Writer};
use cabinet_archived::{ArchivedKind, ArchivedNode};

/// The size of a node.
const NODE: usize = ArchivedNode::SIZE;

/// The size of a pair of a hashed or a kept map.
const PAIR: usize = ArchivedString::SIZE + NODE;

/// Where a kept map has the pointer to its entries: after the table of their numbers.
const ENTRIES: usize = 12;

/// Returns the layout of the nodes of search trees.
fn tree_layout() -> NodeLayout
    ensures layout { IsLayout 5 text node_shape result }
    ensures leaf { result.leaf ≡ 176 }
    ensures inner { result.inner ≡ 192 }
{
    NodeLayout::of::<ArchivedString, ArchivedNode, 5>()
}

/// Maps an option inside `outer` containers.
#[cycle(maps)]
fn map_option<W: Writer>(
    maybe: Ref<'_, ArchivedOption<ArchivedBox<ArchivedNode>>>,
    outer: usize,
    path: &Path<'_>,
    tally: &mut Tally,
    writer: &mut W,
) -> Result<(), Error>
    requires there { HasTree (tagged_value 4) (option (box (sized node_shape))) KnowsNode maybe.bytes.now maybe.pos outer }
    requires room { W.failures writer.old < 2 ^ 64 - 1 }
    ensures mapped { (k : RegionKind) → Mapped W.Writer maybe.entry.bytes.now (record { kind = k; path = path_of path.now }) (at maybe.entry.pos (option (box (sized node_shape))))
        tally.old tally.new writer.old writer.new result }
    ensures counted { FailsByWriter W.Writer writer.old writer.new result }
{
    let Some(boxed) = ArchivedOption::as_ref(maybe) else {
        return Ok(());
    };
    let node = ArchivedBox::get(boxed);
    map_node(node, outer + 1, &Path::Inside(&*path), tally, writer)?;
    write_region(node.pos, NODE, RegionKind::Node, path, tally, writer)
}

/// Maps a whole inside `outer` containers. At a later visit its node lies before the end of the last region.
#[cycle(maps)]
fn map_whole<W: Writer>(
    whole: Ref<'_, ArchivedRc<ArchivedNode, RcFlavor>>,
    outer: usize,
    path: &Path<'_>,
    tally: &mut Tally,
    writer: &mut W,
) -> Result<(), Error>
    requires there { HasTree (tagged_value 9) whole_shape KnowsNode whole.bytes.now whole.pos outer }
    requires room { W.failures writer.old < 2 ^ 64 - 1 }
    ensures mapped { (k : RegionKind) → Mapped W.Writer whole.entry.bytes.now (record { kind = k; path = path_of path.now }) (at whole.entry.pos whole_shape)
        tally.old tally.new writer.old writer.new result }
    ensures counted { FailsByWriter W.Writer writer.old writer.new result }
{
    let node = ArchivedRc::get(whole);
    if node.pos < tally.end {
        return Ok(());
    }
    map_node(node, outer + 1, &Path::Inside(&*path), tally, writer)?;
    write_region(node.pos, NODE, RegionKind::Whole, path, tally, writer)
}

/// Maps a list inside `outer` containers.
#[cycle(maps)]
fn map_list<W: Writer>(
    list: Ref<'_, ArchivedVec<ArchivedNode>>,
    outer: usize,
    path: &Path<'_>,
    tally: &mut Tally,
    writer: &mut W,
) -> Result<(), Error>
    requires there { HasTree (tagged_value 5) (vector node_shape) KnowsNode list.bytes.now list.pos outer }
    requires room { W.failures writer.old < 2 ^ 64 - 1 }
    ensures mapped { (k : RegionKind) → Mapped W.Writer list.entry.bytes.now (record { kind = k; path = path_of path.now }) (at list.entry.pos (vector node_shape))
        tally.old tally.new writer.old writer.new result }
    ensures counted { FailsByWriter W.Writer writer.old writer.new result }
{
    let nodes = ArchivedVec::as_slice(list);
    for index in 0..nodes.len {
        let node = nodes.get(index).unwrap();
        map_node(
            node,
            outer + 1,
            &Path::Place(&*path, index as u64),
            tally,
            writer,
        )?;
    }
    write_region(
        nodes.pos,
        nodes.len * NODE,
        RegionKind::Elements,
        path,
        tally,
        writer,
    )
}

/// Maps a key, and then its node, which lies inside `outer` containers.
#[cycle(maps)]
fn map_entry<W: Writer>(
    key: Ref<'_, ArchivedString>,
    node: Ref<'_, ArchivedNode>,
    outer: usize,
    path: &Path<'_>,
    tally: &mut Tally,
    writer: &mut W,
) -> Result<(), Error>
    requires key { HasValue text (λ _. ⊤) key.bytes.now key.pos }
    requires there { HasTree (λ v. v) node_shape KnowsNode node.bytes.now node.pos outer }
    requires both { key.bytes ≡ node.bytes }
    requires room { W.failures writer.old < 2 ^ 64 - 1 }
    ensures mapped { (k : RegionKind) → Mapped W.Writer node.entry.bytes.now (record { kind = k; path = path_of path.now }) (entry text key.entry.pos node_shape node.entry.pos)
        tally.old tally.new writer.old writer.new result }
    ensures counted { FailsByWriter W.Writer writer.old writer.new result }
{
    let to_node = Path::Key(&*path, ArchivedString::as_str(key));
    write_text(key, RegionKind::Key, &to_node, tally, writer)?;
    map_node(node, outer, &to_node, tally, writer)
}

/// Maps the first `count` entries of a node of a search tree. Their nodes lie inside `outer` containers.
#[cycle(maps)]
fn map_tree_entries<W: Writer>(
    bytes: &[u8],
    pos: usize,
    count: usize,
    outer: usize,
    path: &Path<'_>,
    tally: &mut Tally,
    writer: &mut W,
) -> Result<(), Error>
    requires there { HasEntries bytes.now outer count (pos + 4) (pos + 48) }
    requires room { W.failures writer.old < 2 ^ 64 - 1 }
    ensures mapped { (level i : ℕ) → MappedAll W.Writer bytes.now (record { kind = kind.Tree; path = path_of path.now })
        (node level 5 text node_shape pos) i (entries count text (pos + 4) node_shape (pos + 48))
        tally.old tally.new writer.old writer.new result }
    ensures counted { FailsByWriter W.Writer writer.old writer.new result }
{
    let _len = bytes.len();
    let layout = tree_layout();
    for index in 0..count {
        let key = Ref::new(bytes, pos + layout.keys + index * layout.key_size);
        let node = Ref::new(bytes, pos + layout.values + index * layout.value_size);
        map_entry(key, node, outer, path, tally, writer)?;
    }
    Ok(())
}

/// Maps the node of a search tree on a level to which the pointer at `link` leads, if it leads to one.
#[cycle(maps)]
fn map_child<W: Writer>(
    bytes: &[u8],
    link: usize,
    level: usize,
    outer: usize,
    path: &Path<'_>,
    tally: &mut Tally,
    writer: &mut W,
) -> Result<(), Error>
    requires fits { link + 4 ≤ length bytes.now }
    requires there { HasLink bytes.now outer level link }
    requires room { W.failures writer.old < 2 ^ 64 - 1 }
    ensures mapped { Mapped W.Writer bytes.now (record { kind = kind.Tree; path = path_of path.now }) (child level 5 text node_shape link)
        tally.old tally.new writer.old writer.new result }
    ensures counted { FailsByWriter W.Writer writer.old writer.new result }
{
    if read_word(bytes, link) == NO_CHILD {
        return Ok(());
    }
    map_tree(
        bytes,
        target_of(bytes, link),
        level,
        outer,
        path,
        tally,
        writer,
    )
}

/// Maps the inner node of a search tree on a level: first its children, and then its entries.
#[cycle(maps)]
fn map_inner<W: Writer>(
    bytes: &[u8],
    pos: usize,
    level: usize,
    outer: usize,
    path: &Path<'_>,
    tally: &mut Tally,
    writer: &mut W,
) -> Result<(), Error>
    requires there { HasSubtree bytes.now outer level pos }
    requires inner { slice_index bytes.now pos ≡ 1 }
    requires room { W.failures writer.old < 2 ^ 64 - 1 }
    ensures mapped { Mapped W.Writer bytes.now (record { kind = kind.Tree; path = path_of path.now }) (node level 5 text node_shape pos)
        tally.old tally.new writer.old writer.new result }
    ensures counted { FailsByWriter W.Writer writer.old writer.new result }
{
    let _len = bytes.len();
    let layout = tree_layout();
    for index in 0..layout.entries + 1 {
        let link = pos + layout.links + 4 * index;
        map_child(bytes, link, level + 1, outer, path, tally, writer)?;
    }
    map_tree_entries(bytes, pos, layout.entries, outer, path, tally, writer)?;
    write_region(pos, layout.inner, RegionKind::Tree, path, tally, writer)
}

/// Maps the node of a search tree on a level. The nodes of its entries lie inside `outer` containers.
#[cycle(maps)]
fn map_tree<W: Writer>(
    bytes: &[u8],
    pos: usize,
    level: usize,
    outer: usize,
    path: &Path<'_>,
    tally: &mut Tally,
    writer: &mut W,
) -> Result<(), Error>
    requires there { HasSubtree bytes.now outer level pos }
    requires room { W.failures writer.old < 2 ^ 64 - 1 }
    ensures mapped { Mapped W.Writer bytes.now (record { kind = kind.Tree; path = path_of path.now }) (node level 5 text node_shape pos)
        tally.old tally.new writer.old writer.new result }
    ensures counted { FailsByWriter W.Writer writer.old writer.new result }
{
    let _len = bytes.len();
    let layout = tree_layout();
    if bytes[pos] != 0 {
        return map_inner(bytes, pos, level, outer, path, tally, writer);
    }
    let count = read_word(bytes, pos + layout.links) as usize;
    map_tree_entries(bytes, pos, count, outer, path, tally, writer)?;
    write_region(pos, layout.leaf, RegionKind::Tree, path, tally, writer)
}

/// Maps an ordered map inside `outer` containers.
#[cycle(maps)]
fn map_ordered<W: Writer>(
    map: Ref<'_, OrderedMap>,
    outer: usize,
    path: &Path<'_>,
    tally: &mut Tally,
    writer: &mut W,
) -> Result<(), Error>
    requires there { HasTree (tagged_value 6) map_shape knows_pairs map.bytes.now map.pos outer }
    requires room { W.failures writer.old < 2 ^ 64 - 1 }
    ensures mapped { (k : RegionKind) → Mapped W.Writer map.entry.bytes.now (record { kind = k; path = path_of path.now }) (at map.entry.pos map_shape)
        tally.old tally.new writer.old writer.new result }
    ensures counted { FailsByWriter W.Writer writer.old writer.new result }
{
    if count_at(map.bytes, map.pos) == 0 {
        return Ok(());
    }
    let root = target_of(map.bytes, map.pos);
    map_tree(map.bytes, root, 1, outer + 1, path, tally, writer)
}

/// Maps a hashed map inside `outer` containers: its pairs by ascending place, and then its table.
#[cycle(maps)]
fn map_hashed<W: Writer>(
    map: Ref<'_, HashedMap>,
    outer: usize,
    path: &Path<'_>,
    tally: &mut Tally,
    writer: &mut W,
) -> Result<(), Error>
    requires there { HasTree (tagged_value 7) table_shape knows_pairs map.bytes.now map.pos outer }
    requires room { W.failures writer.old < 2 ^ 64 - 1 }
    ensures mapped { (k : RegionKind) → Mapped W.Writer map.entry.bytes.now (record { kind = k; path = path_of path.now }) (at map.entry.pos table_shape)
        tally.old tally.new writer.old writer.new result }
    ensures counted { FailsByWriter W.Writer writer.old writer.new result }
{
    for (key, node) in HashedMap::iter(map) {
        map_entry(key, node, outer + 1, path, tally, writer)?;
    }
    write_table::<Entry<ArchivedString, ArchivedNode>, W>(map.bytes, map.pos, path, tally, writer)
}

/// Maps a kept map inside `outer` containers: its table, what its entries lead to, and then its entries.
#[cycle(maps)]
fn map_kept<W: Writer>(
    map: Ref<'_, KeptMap>,
    outer: usize,
    path: &Path<'_>,
    tally: &mut Tally,
    writer: &mut W,
) -> Result<(), Error>
    requires there { HasTree (tagged_value 8) index_shape knows_pairs map.bytes.now map.pos outer }
    requires room { W.failures writer.old < 2 ^ 64 - 1 }
    ensures mapped { (k : RegionKind) → Mapped W.Writer map.entry.bytes.now (record { kind = k; path = path_of path.now }) (at map.entry.pos index_shape)
        tally.old tally.new writer.old writer.new result }
    ensures counted { FailsByWriter W.Writer writer.old writer.new result }
{
    let count = KeptMap::len(map);
    if count == 0 {
        return Ok(());
    }
    write_table::<ArchivedU32, W>(map.bytes, map.pos, path, tally, writer)?;
    for (key, node) in KeptMap::iter(map) {
        map_entry(key, node, outer + 1, path, tally, writer)?;
    }
    let start = target_of(map.bytes, map.pos + ENTRIES);
    write_region(
        start,
        count * PAIR,
        RegionKind::Entries,
        path,
        tally,
        writer,
    )
}

/// Maps a node inside `outer` containers. It recurses as deep as containers lie in one another, which are at most 64, and in
/// each ordered map as deep as its search tree, which has at most 32 levels.
#[cycle(maps)]
pub(crate) fn map_node<W: Writer>(
    node: Ref<'_, ArchivedNode>,
    outer: usize,
    path: &Path<'_>,
    tally: &mut Tally,
    writer: &mut W,
) -> Result<(), Error>
    requires there { HasTree (λ v. v) node_shape KnowsNode node.bytes.now node.pos outer }
    requires room { W.failures writer.old < 2 ^ 64 - 1 }
    ensures mapped { (k : RegionKind) → Mapped W.Writer node.entry.bytes.now (record { kind = k; path = path_of path.now }) (at node.entry.pos node_shape)
        tally.old tally.new writer.old writer.new result }
    ensures counted { FailsByWriter W.Writer writer.old writer.new result }
{
    tally.count_node(node.bytes[node.pos]);
    match ArchivedNode::kind(node) {
        ArchivedKind::Bool(_) | ArchivedKind::Int(_) => Ok(()),
        ArchivedKind::Text(text) => write_text(text, RegionKind::Text, path, tally, writer),
        ArchivedKind::Shared(text) => write_shared(text, path, tally, writer),
        ArchivedKind::Maybe(maybe) => map_option(maybe, outer, path, tally, writer),
        ArchivedKind::List(list) => map_list(list, outer, path, tally, writer),
        ArchivedKind::Ordered(map) => map_ordered(map, outer, path, tally, writer),
        ArchivedKind::Hashed(map) => map_hashed(map, outer, path, tally, writer),
        ArchivedKind::Kept(map) => map_kept(map, outer, path, tally, writer),
        ArchivedKind::Whole(whole) => map_whole(whole, outer, path, tally, writer),
    }
}
