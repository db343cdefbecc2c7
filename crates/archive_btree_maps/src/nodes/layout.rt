//! Where the parts of a search tree's node lie.
ghost use Rattle.archive_btree_maps.specs.Layout.{IsNodeLayout};
ghost use Rattle.archive_btree_maps.specs.Calls.Layout.{IsExact, IsExactInBuffers};

use archive_forms_values::{greater, next_multiple};
use archive_shape::Portable;

/// The greatest number of levels of a tree; the root is on level 1.
pub(crate) const MAX_LEVELS: usize = 32;

/// The word of a pointer that leads to no child.
pub const NO_CHILD: u32 = 1;

/// The layout of a node: the offsets of its parts, in bytes from its first byte, their sizes in bytes, and their
/// alignments. Offsets and sizes stop at `usize::MAX`, which no node in a buffer has.
#[derive(Clone, Copy, Debug, PartialEq, Eq)]
pub struct NodeLayout {
    /// The greatest number of entries of a node.
    pub entries: usize,
    /// The offset of the first key.
    pub keys: usize,
    /// The size of a key.
    pub key_size: usize,
    /// The offset of the first value.
    pub values: usize,
    /// The size of a value.
    pub value_size: usize,
    /// The size and the alignment of the part that leaves and inner nodes begin with: the kind, the keys and the
    /// values.
    pub size: usize,
    pub align: usize,
    /// The offset of the length of a leaf, or of the first pointer of an inner node.
    pub links: usize,
    /// The size of a leaf, and of an inner node.
    pub leaf: usize,
    pub inner: usize,
    /// The alignment of leaves and inner nodes.
    pub link_align: usize,
}

impl NodeLayout {
    /// Returns the layout of nodes with at most `E` entries.
    pub const fn of<K: Portable, V: Portable, const E: usize>() -> Self
        ensures parts { IsNodeLayout E K.shape V.shape result }
        ensures exact { IsExact E K.shape V.shape result }
        ensures buffer { IsExactInBuffers E K.shape V.shape result }
    {
        let keys = next_multiple(1, K::ALIGN);
        let keys_end = keys.saturating_add(E.saturating_mul(K::SIZE));
        let values = next_multiple(keys_end, V::ALIGN);
        let values_end = values.saturating_add(E.saturating_mul(V::SIZE));
        let align = greater(K::ALIGN, V::ALIGN);
        let size = next_multiple(values_end, align);
        let links = next_multiple(size, 4);
        let link_align = greater(align, 4);
        let leaf_end = links.saturating_add(4);
        let inner_end = links.saturating_add(E.saturating_add(1).saturating_mul(4));
        NodeLayout {
            entries: E,
            keys,
            key_size: K::SIZE,
            values,
            value_size: V::SIZE,
            size,
            align,
            links,
            leaf: next_multiple(leaf_end, link_align),
            inner: next_multiple(inner_end, link_align),
            link_align,
        }
    }
}
