//! The root of the search tree of a map.
ghost use Rattle.std.specs.Prelude.{◌≡◌, ◌+◌, ◌≤◌, length};
ghost use Rattle.archive_shape_layout.specs.Bytes.{word_at};
ghost use Rattle.archive_shape_layout.specs.Shape.Shape.{tree};
ghost use Rattle.archive_btree_layout.specs.Tree.{Tree, items};
ghost use Rattle.archive_btree_layout.specs.Reading.{Place};
ghost use Rattle.archive_forms_values.specs.Parts.{HasValue, both};
ghost use Rattle.archive_btree_maps.specs.Maps.{IsMapAt};
ghost use Rattle.archive_btree_maps.specs.Calls.Walks.{HasRoot, LeadsToRoot, WalksMap};

use crate::nodes::{EntryWalk, NodeLayout, Walk};
use archive_forms_values::{read_word, target_of};
use archive_shape::Portable;

/// The position of the root of a search tree, and the layout of its nodes.
#[derive(Clone, Copy)]
pub(crate) struct Root {
    pub pos: usize,
    pub layout: NodeLayout,
}

/// Reads the number of entries of the map at `pos` from the map's own bytes.
pub fn count_at(bytes: &[u8], pos: usize) -> usize
    requires { pos + 8 ≤ length bytes.now }
    ensures { result ≡ word_at bytes.now (pos + 4) }
{
    read_word(bytes, pos + 4) as usize
}

/// Returns the root of the map at `pos`, if the map has entries.
pub(crate) fn root_at<K: Portable, V: Portable, const E: usize>(
    bytes: &[u8],
    pos: usize,
) -> Option<Root>
    requires has { HasValue (tree E K.shape V.shape) (both K.knows V.knows) bytes.now pos }
    ensures tree { HasRoot E K.shape V.shape bytes.now pos result }
    ensures leads { LeadsToRoot E K.shape V.shape bytes.now pos result }
{
    let _len = bytes.len();
    if count_at(bytes, pos) == 0 {
        return None;
    }
    Some(Root {
        pos: target_of(bytes, pos),
        layout: NodeLayout::of::<K, V, E>(),
    })
}

/// Returns a walk over the entries of the map at `pos`.
pub fn walk_at<K: Portable, V: Portable, const E: usize>(bytes: &[u8], pos: usize) -> Walk<'_>
    requires has { HasValue (tree E K.shape V.shape) (both K.knows V.knows) bytes.now pos }
    ensures { (t : Tree Place) → IsMapAt bytes.entry.now E K.shape V.shape pos t → result ≡ items t }
{
    match root_at::<K, V, E>(bytes, pos) {
        Some(root) => Walk::new(bytes, root.pos, root.layout, count_at(bytes, pos)),
        None => Walk::empty(bytes, NodeLayout::of::<K, V, E>()),
    }
}

/// Returns a walk, which holds no bytes, over the entries of the map at `pos`.
pub fn entry_walk_at<K: Portable, V: Portable, const E: usize>(
    bytes: &[u8],
    pos: usize,
) -> EntryWalk
    requires has { HasValue (tree E K.shape V.shape) (both K.knows V.knows) bytes.now pos }
    ensures { WalksMap E K.shape V.shape bytes.now pos result }
{
    match root_at::<K, V, E>(bytes, pos) {
        Some(root) => EntryWalk::new(bytes, root.pos, root.layout),
        None => EntryWalk::empty(NodeLayout::of::<K, V, E>()),
    }
}
