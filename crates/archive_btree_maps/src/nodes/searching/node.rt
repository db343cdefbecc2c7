//! The reads of a search tree's node: its entries and its children.
ghost use Rattle.std.specs.Prelude.{◌≡◌, ◌+◌, ◌<◌, ◌≤◌, length};
ghost use Rattle.archive_shape_layout.specs.Bytes as layout;
ghost use Rattle.archive_btree_maps.specs.SearchingNodes.{IsReadable, entry_count, entry_of, child_of, place_of, pointer_at, Leads};

use crate::nodes::NodeLayout;
use archive_forms_values::read_word;

/// The positions of an entry's key and value.
#[derive(Clone, Copy, Debug, PartialEq, Eq)]
pub struct EntryAt {
    pub key: usize,
    pub value: usize,
}

/// Returns the position that the pointer at `link` points to, if the pointer is valid.
fn follow(bytes: &[u8], link: usize) -> Option<usize>
    requires room { link + 4 ≤ length bytes.now }
    requires leads { Leads bytes.now link }
    ensures { result ≡ pointer_at bytes.now link }
{
    let word = read_word(bytes, link);
    if word == 1 {
        return None;
    }
    if word < 1 << 31 {
        Some(link + word as usize)
    } else {
        Some(link - ((1 << 32) - word as usize))
    }
}

/// Returns the number of entries of the node at a position.
pub(crate) fn entry_count(bytes: &[u8], layout: NodeLayout, pos: usize) -> usize
    requires { IsReadable bytes.now layout pos }
    ensures { result ≡ entry_count bytes.now layout pos }
{
    let _len = bytes.len();
    if bytes[pos] == 0 {
        read_word(bytes, pos + layout.links) as usize
    } else {
        layout.entries
    }
}

/// Returns the positions of the key and the value of entry `i` of the node at a position.
pub(crate) fn entry_of(bytes: &[u8], layout: NodeLayout, pos: usize, i: usize) -> EntryAt
    requires node { IsReadable bytes.now layout pos }
    requires below { i < entry_count bytes.now layout pos }
    ensures { place_of result ≡ entry_of layout pos i }
{
    let _len = bytes.len();
    EntryAt {
        key: pos + layout.keys + i * layout.key_size,
        value: pos + layout.values + i * layout.value_size,
    }
}

/// Returns the position of child `i` of the node at a position, if there is one. A leaf has none.
pub(crate) fn child_of(bytes: &[u8], layout: NodeLayout, pos: usize, i: usize) -> Option<usize>
    requires node { IsReadable bytes.now layout pos }
    requires within { i ≤ entry_count bytes.now layout pos }
    ensures { result ≡ child_of bytes.now layout pos i }
{
    let _len = bytes.len();
    if bytes[pos] == 0 {
        None
    } else {
        follow(bytes, pos + layout.links + 4 * i)
    }
}
